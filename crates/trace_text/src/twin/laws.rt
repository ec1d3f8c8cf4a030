//! Laws of the text.

ghost use Rattle.std.specs.Prelude.{◌≡◌, ◌⊎◌, ℕ, List, Option, Ok, Some};
ghost use Rattle.trace_text.specs.Reading.{line_in};
ghost use Rattle.trace_text.specs.declared.fault.TextFault.{TextFault};
ghost use Rattle.trace_text.specs.declared.line.Line.{Line};
ghost use Rattle.trace_text.specs.twin.Reading.{roll_line_in, first_roll_fault};
ghost use Rattle.trace_text.specs.declared.twin.line.RollLine.{RollLine};
ghost use Rattle.trace_text.specs.declared.twin.line.RollLine.TheVariants.{Plain};

/// A text is read or refused, and never both.
pub fn law_read_or_refused()
    ensures one { (text : List ℕ) → ((said : Option RollLine) × (roll_line_in text ≡ Ok said))
        ⊎ ((fault : TextFault) × (first_roll_fault text ≡ Some fault)) }
    ensures not_both { (text : List ℕ) (said : Option RollLine) (fault : TextFault)
        → roll_line_in text ≡ Ok said → first_roll_fault text ≡ Some fault → ⊥ }
{}

/// A line that a trace of one group has too says there what it says here.
pub fn law_plain_as_of_one_group()
    ensures { (text : List ℕ) (line : Line)
        → roll_line_in text ≡ Ok (Some (Plain line)) → line_in text ≡ Ok (Some line) }
{}
