//! What holds of the lines of every text.

ghost use Rattle.std.specs.Prelude.{◌≤◌, ◌+◌, ℕ, List, length};
ghost use Rattle.text_lines.specs.Reading.{lines_within};

/// A text has few lines within a limit: each but the last ends in an octet of its own.
pub fn law_lines_are_few()
    ensures { (limit : ℕ) (text : List ℕ) → length (lines_within limit text) ≤ limit + 1 }
{}
