//! A line of a trace of two groups is read.

ghost use Rattle.std.specs.Prelude.{◌≡◌, ◌↔◌, Ok, Err, Some, None, IfOk, IfSome};
ghost use Rattle.trace_text.specs.Answering.{Answers};
ghost use Rattle.trace_text.specs.declared.fault.TextFault.{TextFault};
ghost use Rattle.trace_text.specs.declared.fault.LineError.TheVariants.{Refused, Memory};
ghost use Rattle.trace_text.specs.twin.Reading.{roll_line_in, first_roll_fault};
ghost use Rattle.trace_text.specs.twin.InForm.{IsInFormRoll};

use crate::twin::forms::read_roll_form;
use crate::twin::line::RollLine;
use crate::{LineError, MAX_LINE, TextFault, is_comment, next_word};
use std::alloc::Global;

/// The line that a text without its line ending says in a trace of two groups, or `None` where it
/// has no word or is a comment.
pub fn read_roll_line(alloc: Global, text: &[u8]) -> Result<Option<RollLine>, LineError>
    ensures read { IfOk result (λ said. roll_line_in text.now ≡ Ok said) }
    ensures in_form { IfOk result (λ said. IfSome said IsInFormRoll) }

    // Each fault comes exactly where it is the text's first, and memory is never wanting in its
    // place.
    ensures refused { (fault : TextFault)
        → (result ≡ Err (Refused fault)) ↔ (first_roll_fault text.now ≡ Some fault) }
    ensures memory { result ≡ Err Memory → first_roll_fault text.now ≡ None }
{
    answer_roll_line(alloc, text)
}

/// Reads a line.
#[tactic(auto, unfolding(crate::specs::twin::Reading::roll_line_in))]
fn answer_roll_line(alloc: Global, text: &[u8]) -> Result<Option<RollLine>, LineError>
    ensures { Answers result (roll_line_in text.now) }
{
    if text.len() > MAX_LINE {
        return Err(LineError::Refused(TextFault::TooLong));
    }
    let Some((first, rest)) = next_word(text) else {
        return Ok(None);
    };
    if is_comment(first) {
        return Ok(None);
    }
    let line = read_roll_form(alloc, first, rest)?;
    Ok(Some(line))
}
