//! A line is read.

ghost use Rattle.std.specs.Prelude.{◌≡◌, ◌↔◌, Ok, Err, Some, None, IfOk, IfSome};
ghost use Rattle.trace_text.specs.Reading.{line_in, first_fault, is_comment};
ghost use Rattle.trace_text.specs.Writing.{IsInForm};
ghost use Rattle.trace_text.specs.Answering.{Answers};
ghost use Rattle.trace_text.specs.declared.fault.TextFault.{TextFault};
ghost use Rattle.trace_text.specs.declared.fault.LineError.TheVariants.{Refused, Memory};

use crate::fault::{LineError, TextFault};
use crate::forms::read_form;
use crate::limits::MAX_LINE;
use crate::line::Line;
use crate::words::next_word;
use std::alloc::Global;

/// The line that a text without its line ending says, or `None` where it has no word or is a
/// comment.
pub fn read_line(alloc: Global, line: &[u8]) -> Result<Option<Line>, LineError>
    ensures read { IfOk result (λ said. line_in line.now ≡ Ok said) }
    ensures in_form { IfOk result (λ said. IfSome said IsInForm) }

    // Each fault comes exactly where it is the text's first, and memory is never wanting in its
    // place.
    ensures refused { (fault : TextFault)
        → (result ≡ Err (Refused fault)) ↔ (first_fault line.now ≡ Some fault) }
    ensures memory { result ≡ Err Memory → first_fault line.now ≡ None }
{
    answer_line(alloc, line)
}

/// Reads a line.
#[tactic(auto, unfolding(crate::specs::Reading::line_in))]
fn answer_line(alloc: Global, line: &[u8]) -> Result<Option<Line>, LineError>
    ensures { Answers result (line_in line.now) }
{
    if line.len() > MAX_LINE {
        return Err(LineError::Refused(TextFault::TooLong));
    }
    let Some((first, rest)) = next_word(line) else {
        return Ok(None);
    };
    if is_comment(first) {
        return Ok(None);
    }
    let line = read_form(alloc, first, rest)?;
    Ok(Some(line))
}

/// Whether a word begins a comment.
pub fn is_comment(word: &[u8]) -> bool
    ensures { result ≡ is_comment word.now }
{
    match word {
        [octet, ..] => *octet == b'#',
        [] => false,
    }
}
