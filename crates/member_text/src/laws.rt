//! Laws of the text.

ghost use Rattle.std.specs.Prelude.{◌≡◌, ◌⊎◌, ℕ, List, Option, Ok, Some};
ghost use Rattle.trace_text.specs.Reading.{line_in};
ghost use Rattle.trace_text.specs.declared.fault.TextFault.{TextFault};
ghost use Rattle.trace_text.specs.declared.line.Line.{Line};
ghost use Rattle.member_text.specs.Reading.{member_line_in, first_member_fault};
ghost use Rattle.member_text.specs.declared.line.MemberLine.{MemberLine};
ghost use Rattle.member_text.specs.declared.line.MemberLine.TheVariants.{Plain};

/// A text is read or refused, and never both.
pub fn law_read_or_refused()
    ensures one { (text : List ℕ) → ((said : Option MemberLine) × (member_line_in text ≡ Ok said))
        ⊎ ((fault : TextFault) × (first_member_fault text ≡ Some fault)) }
    ensures not_both { (text : List ℕ) (said : Option MemberLine) (fault : TextFault)
        → member_line_in text ≡ Ok said → first_member_fault text ≡ Some fault → ⊥ }
{}

/// A line that a trace has too says there what it says here.
pub fn law_plain_as_of_a_trace()
    ensures { (text : List ℕ) (line : Line)
        → member_line_in text ≡ Ok (Some (Plain line)) → line_in text ≡ Ok (Some line) }
{}
