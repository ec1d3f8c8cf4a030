//! Why a transcript was not read to its end.

ghost use Rattle.std.specs.Prelude.{◌≡◌};
ghost use Rattle.transcript_reader.specs.inside.Lines.{why_unfinished};

use crate::counting::number_after;
use crate::take_error::TakeError;
use text_lines::{End, Unfinished};

/// What the end of reading lines is to the transcript, of which so many lines were taken.
pub(crate) fn why_unfinished<F: Drop>(end: End<TakeError<F>>, count: u64) -> Unfinished<F>
    ensures { result ≡ why_unfinished end count }
{
    match end {
        End::Refused(TakeError::Refused(why)) => Unfinished::Refused {
            at: number_after(count),
            why,
        },
        End::Refused(TakeError::Failed) => Unfinished::WriteFault,
        End::Refused(TakeError::Memory) | End::Memory => Unfinished::Memory,
        End::ReadFault => Unfinished::ReadFault,
        End::Limit => Unfinished::Limit,
    }
}
