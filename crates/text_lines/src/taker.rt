//! Who takes the lines of a text.

ghost use Rattle.std.specs.Prelude.{◌∷◌, ◌++◌, [], List, ℕ, Result, Ok, Err};
ghost use Rattle.text_lines.specs.Moments.{Moment, moment};

/// Takes the lines of a text, one after the other, until it refuses one. What it writes to, its
/// outlet, is passed beside it: a taker that lent the outlet would hide what it holds.
pub trait LineTaker<K> {
    /// Why a line is refused.
    type Error: Drop;

    /// What has to hold where lines are taken, as that what a taker lends to threads may be shared.
    ghost Asks: { Type 0 };

    /// From one moment to another these lines were taken, or the last of them was refused.
    ghost Did: { List (List ℕ) → Moment Self K → Moment Self K → Result (Unit {0}) Self.Error → Type 0 };

    /// Takes the next line, without its ending.
    fn line(&mut self, text: &[u8], outlet: &mut K) -> Result<(), Self::Error>
        requires { Asks }
        ensures { Did (text.now ∷ [])
            (moment self.old outlet.old) (moment self.new outlet.new) result };

    /// No line was taken.
    ghost none: { (a : Moment Self K) → Did [] a a (Ok tt) };

    /// Lines were taken, and then others were, or refused.
    ghost more: { (a b c : Moment Self K) (xs ys : List (List ℕ)) (r : Result (Unit {0}) Self.Error)
        → Did xs a b (Ok tt) → Did ys b c r → Did (xs ++ ys) a c r };

    /// A line was refused, so those behind it were not handed on.
    ghost early: { (a b : Moment Self K) (xs ys : List (List ℕ)) (e : Self.Error)
        → Did xs a b (Err e) → Did (xs ++ ys) a b (Err e) };
}
