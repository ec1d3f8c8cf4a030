//! What holds of least pairs, whatever is told.

ghost use Rattle.std.specs.Prelude.{ℕ, ◌≡◌, ◌↔◌, Bool, Option, Some, true};
ghost use Rattle.least_pairs.specs.Pairs.{Noted, Breaks, IsJudged, IsFound, IsFront, IsOneMore};

/// Two verdicts on the same are one: at most one pair is the least, and no verdict names a pair where
/// another one finds none.
pub fn law_one_verdict<K, V>()
    ensures { (agree : V → V → Bool) (noted : Noted K V) (one other : Option (ℕ × ℕ))
        → IsJudged (Breaks K V agree noted) one → IsJudged (Breaks K V agree noted) other
        → one ≡ other }
{}

/// What is broken in a front stays broken, by the same pair.
pub fn law_a_front_stays_broken<K, V>()
    ensures { (agree : V → V → Bool) (end : ℕ) (front whole : Noted K V) (pair : ℕ × ℕ)
        → IsFront K V end front whole → IsJudged (Breaks K V agree front) (Some pair)
        → IsJudged (Breaks K V agree whole) (Some pair) }
{}

/// What was told of a key before, told of it once more, makes no pair appear or go.
pub fn law_a_repetition_changes_no_pair<K, V>()
    ensures { (agree : V → V → Bool) (before now : Noted K V) (earlier number : ℕ) (key : K) (v : V)
        → ((x : V) → agree x x ≡ true) → ((x y : V) → agree x y ≡ agree y x)
        → before earlier ≡ Some (key, v) → IsOneMore K V before now number (Some (key, v))
        → (verdict : Option (ℕ × ℕ))
        → IsJudged (Breaks K V agree before) verdict ↔ IsJudged (Breaks K V agree now) verdict }
{}
