//! Laws of the text.

ghost use Rattle.std.specs.Prelude.{◌≡◌, ◌≤◌, ◌⊎◌, ℕ, List, Option, Ok, Some, length};
ghost use Rattle.trace_text.specs.Limits.{most_line};
ghost use Rattle.trace_text.specs.Reading.{line_in, first_fault};
ghost use Rattle.trace_text.specs.Writing.{IsInForm, written};
ghost use Rattle.trace_text.specs.declared.fault.TextFault.{TextFault};
ghost use Rattle.trace_text.specs.declared.line.Line.{Line};

/// What is written of a line is read as the same line, where each word is inside its form and the
/// text is no longer than a line may be.
pub fn law_written_is_read()
    ensures { (line : Line) → IsInForm line → length (written line) ≤ most_line
        → line_in (written line) ≡ Ok (Some line) }
{}

/// A text is read or refused, and never both.
pub fn law_read_or_refused()
    ensures one { (text : List ℕ) → ((said : Option Line) × (line_in text ≡ Ok said))
        ⊎ ((fault : TextFault) × (first_fault text ≡ Some fault)) }
    ensures not_both { (text : List ℕ) (said : Option Line) (fault : TextFault)
        → line_in text ≡ Ok said → first_fault text ≡ Some fault → ⊥ }
{}
