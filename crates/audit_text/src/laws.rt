//! Laws of the key text.

ghost use Rattle.std.specs.Prelude.{◌≡◌, ◌⊎◌, ℕ, List, Option, Ok, Some};
ghost use Rattle.trace_text.specs.declared.fault.TextFault.{TextFault};
ghost use Rattle.audit_text.specs.Parting.{IsParted, capture_behind, key_text};
ghost use Rattle.audit_text.specs.Reading.{key_line_in, first_key_fault};
ghost use Rattle.audit_text.specs.declared.line.KeyLine.{KeyLine};

/// A line is read or refused.
pub fn law_read_or_refused()
    ensures { (text : List ℕ) → ((said : Option KeyLine) × (key_line_in text ≡ Ok said))
        ⊎ ((fault : TextFault) × (first_key_fault text ≡ Some fault)) }
{}

/// What stands before the capture is the key text: every text is parted into both in one way alone, and
/// so the keys that a judge uses are not hidden in the capture, nor packets in the keys.
pub fn law_parted()
    ensures parts { (text : List ℕ)
        → IsParted text (key_text text) (capture_behind text) }
    ensures alone { (text keys capture : List ℕ) → IsParted text keys capture
        → (keys ≡ key_text text) × (capture ≡ capture_behind text) }
{}
