//! A line of a member's input is read.

ghost use Rattle.std.specs.Prelude.{◌≡◌, ◌↔◌, Ok, Err, Some, None, IfOk, IfSome};
ghost use Rattle.trace_text.specs.Answering.{Answers};
ghost use Rattle.trace_text.specs.declared.fault.TextFault.{TextFault};
ghost use Rattle.trace_text.specs.declared.fault.LineError.TheVariants.{Refused, Memory};
ghost use Rattle.member_text.specs.Reading.{member_line_in, first_member_fault};
ghost use Rattle.member_text.specs.InForm.{IsInFormMember};

use crate::forms::read_member_form;
use crate::line::MemberLine;
use std::alloc::Global;
use trace_text::{LineError, MAX_LINE, TextFault, is_comment, next_word};

/// The line that a text without its line ending says in a member's input, or `None` where it has no
/// word or is a comment.
pub fn read_member_line(alloc: Global, text: &[u8]) -> Result<Option<MemberLine>, LineError>
    ensures read { IfOk result (λ said. member_line_in text.now ≡ Ok said) }
    ensures in_form { IfOk result (λ said. IfSome said IsInFormMember) }

    // Each fault comes exactly where it is the text's first, and memory is never wanting in its
    // place.
    ensures refused { (fault : TextFault)
        → (result ≡ Err (Refused fault)) ↔ (first_member_fault text.now ≡ Some fault) }
    ensures memory { result ≡ Err Memory → first_member_fault text.now ≡ None }
{
    answer_member_line(alloc, text)
}

/// Reads a line.
#[tactic(auto, unfolding(crate::specs::Reading::member_line_in))]
fn answer_member_line(alloc: Global, text: &[u8]) -> Result<Option<MemberLine>, LineError>
    ensures { Answers result (member_line_in text.now) }
{
    if text.len() > MAX_LINE {
        return Err(LineError::Refused(TextFault::TooLong));
    }
    let Some((first, rest)) = next_word(text) else {
        return Ok(None);
    };
    if is_comment(first) {
        return Ok(None);
    }
    let line = read_member_form(alloc, first, rest)?;
    Ok(Some(line))
}
