//! A line of the key text is read.

ghost use Rattle.std.specs.Prelude.{◌≡◌, ◌↔◌, Ok, Err, Some, None, IfOk, IfSome};
ghost use Rattle.trace_text.specs.Answering.{Answers};
ghost use Rattle.trace_text.specs.declared.fault.TextFault.{TextFault};
ghost use Rattle.trace_text.specs.declared.fault.LineError.TheVariants.{Refused, Memory};
ghost use Rattle.audit_text.specs.Reading.{key_line_in, first_key_fault};
ghost use Rattle.audit_text.specs.InForm.{IsInFormKey};

use crate::forms::read_key_form;
use crate::line::KeyLine;
use std::alloc::Global;
use trace_text::{LineError, MAX_LINE, TextFault, is_comment, next_word};

/// The line that a text without its line ending says in the key text, or `None` where it
/// has no word or is a comment.
pub fn read_key_line(alloc: Global, text: &[u8]) -> Result<Option<KeyLine>, LineError>
    ensures read { IfOk result (λ said. key_line_in text.now ≡ Ok said) }
    ensures in_form { IfOk result (λ said. IfSome said IsInFormKey) }

    // Each fault comes exactly where it is the text's first, and memory is never wanting in its
    // place.
    ensures refused { (fault : TextFault)
        → (result ≡ Err (Refused fault)) ↔ (first_key_fault text.now ≡ Some fault) }
    ensures memory { result ≡ Err Memory → first_key_fault text.now ≡ None }
{
    answer_key_line(alloc, text)
}

/// Reads a line.
#[tactic(auto, unfolding(crate::specs::Reading::key_line_in))]
fn answer_key_line(alloc: Global, text: &[u8]) -> Result<Option<KeyLine>, LineError>
    ensures { Answers result (key_line_in text.now) }
{
    if text.len() > MAX_LINE {
        return Err(LineError::Refused(TextFault::TooLong));
    }
    let Some((first, rest)) = next_word(text) else {
        return Ok(None);
    };
    if is_comment(first) {
        return Ok(None);
    }
    let line = read_key_form(alloc, first, rest)?;
    Ok(Some(line))
}
