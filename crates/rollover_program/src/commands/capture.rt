//! `capture`: the file of a transcript's frames is written.

ghost use Rattle.std.specs.Prelude.{◌≡◌};
ghost use Rattle.rollover_program.specs.declared.words.Order.TheVariants as orders;
ghost use Rattle.rollover_program.specs.Outside.{outside};
ghost use Rattle.rollover_program.specs.Carried.{IsCarriedOut};
ghost use Rattle.rollover_program.specs.Turned.{ShowsInTurn};
ghost use Rattle.rollover_program.specs.commands.Capture.{status_of_capture};

use crate::status::Status;
use lan_base::{Sink, Source};
use std::alloc::Global;
use text_lines::Unfinished;
use transcript_capture::LineFault;

/// Writes the file of a transcript's frames.
pub fn capture<S: Source, K: Sink>(alloc: Global, source: &mut S, sink: &mut K) -> Status
    ensures carried { IsCarriedOut orders.Capture
        (outside S.Source K.Sink source.old source.new sink.old sink.new) result }
    ensures turned { ShowsInTurn S.Gave orders.Capture source.old source.new
        (outside S.Source K.Sink source.old source.new sink.old sink.new) result }
{
    status_of_capture(transcript_capture::capture(alloc, source, sink))
}

/// The status of how capturing ended.
fn status_of_capture(answer: Result<(), Unfinished<LineFault>>) -> Status
    ensures { result ≡ status_of_capture answer }
{
    match answer {
        Ok(()) => Status::Done,
        Err(Unfinished::Refused { at, why }) => Status::Unrecorded { line: at, why },
        Err(Unfinished::Limit) => Status::CaptureInput,
        Err(Unfinished::ReadFault) => Status::ReadFault,
        Err(Unfinished::WriteFault) => Status::WriteFault,
        Err(Unfinished::Memory) => Status::Memory,
    }
}
