//! What holds of right frames.

ghost use Rattle.std.specs.Prelude.{ℕ, ◌≡◌, ◌≤◌, ◌↔◌, List, [], ◌∷◌, ◌++◌, Option, Some};
ghost use Rattle.least_pairs.specs.Pairs.{IsJudged};
ghost use Rattle.use_notes.specs.declared.frame.RightFrame.{RightFrame};
ghost use Rattle.use_notes.specs.Frames.{AreInOrder};
ghost use Rattle.use_notes.specs.Once.{BreaksOnce, first_reuse};
ghost use Rattle.use_notes.specs.Uses.{AreInTime, window};

/// The first reused frame and the first with its packet number are the least pair that breaks, and
/// where no frame is reused none breaks.
pub fn law_the_first_reuse_is_the_least_pair()
    ensures { (h : List RightFrame) → AreInOrder h → IsJudged (BreaksOnce h) (first_reuse h) }
{}

/// What is broken in a front stays broken, by the same pair.
pub fn law_a_front_stays_broken()
    ensures { (later h : List RightFrame) (pair : ℕ × ℕ) → AreInOrder (later ++ h)
        → IsJudged (BreaksOnce h) (Some pair) → IsJudged (BreaksOnce (later ++ h)) (Some pair) }
{}

/// A frame once more, in a later packet and at any time, makes no pair appear or go.
pub fn law_a_repetition_changes_no_pair()
    ensures { (later before : List RightFrame) (e : RightFrame) (packet time : ℕ)
        → AreInOrder (record e { packet = packet; time = time } ∷ later ++ e ∷ before)
        → (verdict : Option (ℕ × ℕ))
        → IsJudged (BreaksOnce (later ++ e ∷ before)) verdict
        ↔ IsJudged (BreaksOnce (record e { packet = packet; time = time } ∷ later ++ e ∷ before)) verdict }
{}

/// The window that is told is the least replay window under which none of the new frames is late:
/// none is under it and under each greater one, and some is under each less one.
pub fn law_the_window_is_the_least()
    ensures { (fs : List RightFrame) (w : ℕ) → (window fs ≤ w) ↔ AreInTime w fs }
{}
