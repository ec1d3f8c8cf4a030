//! `dissect`: each packet of a file of captured packets is told in one line.

ghost use Rattle.std.specs.Prelude.{◌≡◌};
ghost use Rattle.rollover_program.specs.declared.words.Order.TheVariants as orders;
ghost use Rattle.rollover_program.specs.Outside.{outside};
ghost use Rattle.rollover_program.specs.Carried.{IsCarriedOut};
ghost use Rattle.rollover_program.specs.commands.Dissect.{status_of_telling};

use crate::status::Status;
use capture_file::CaptureFault;
use lan_base::{Sink, Source};
use std::alloc::Global;
use text_lines::Unfinished;

/// Tells each packet of a file of captured packets in one line.
pub fn dissect<S: Source, K: Sink>(alloc: Global, source: &mut S, sink: &mut K) -> Status
    ensures { IsCarriedOut orders.Dissect
        (outside S.Source K.Sink source.old source.new sink.old sink.new) result }
{
    status_of_telling(packet_lines::dissect(alloc, source, sink))
}

/// The status of how telling a file ended.
fn status_of_telling(answer: Result<(), Unfinished<CaptureFault>>) -> Status
    ensures { result ≡ status_of_telling answer }
{
    match answer {
        Ok(()) => Status::Done,
        Err(Unfinished::Refused { at, why }) => Status::Capture { at, why },
        Err(Unfinished::Limit) => Status::CaptureInput,
        Err(Unfinished::ReadFault) => Status::ReadFault,
        Err(Unfinished::WriteFault) => Status::WriteFault,
        Err(Unfinished::Memory) => Status::Memory,
    }
}
