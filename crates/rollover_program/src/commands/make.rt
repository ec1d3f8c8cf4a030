//! `make N`.

ghost use Rattle.std.specs.Prelude.{◌≡◌, IfOk};
ghost use Rattle.trace_maker.specs.Made.{made};
ghost use Rattle.replay.specs.Sinks.{sunk};
ghost use Rattle.rollover_program.specs.commands.Make.{EndsMade};

use crate::status::{Status, status_of_unwritten};
use lan_base::{Sink, write_all};
use std::alloc::{AllocError, Global};

/// Writes the trace that is made of a number.
pub fn make<K: Sink>(alloc: Global, number: u32, sink: &mut K) -> Status
    ensures { EndsMade number (sunk (K.held sink.old) (K.faults sink.old))
        (sunk (K.held sink.new) (K.faults sink.new)) result }
{
    let Ok(text) = made(alloc, number) else {
        return Status::Memory;
    };
    match write_all(sink, &text) {
        Ok(()) => Status::Done,
        Err(why) => status_of_unwritten(why),
    }
}

/// The trace of a number.
pub(crate) fn made(alloc: Global, number: u32) -> Result<Vec<u8>, AllocError>
    ensures { IfOk result (λ text. text.items ≡ made number) }
{
    let mut text = Vec::new(alloc);
    trace_maker::make(alloc, number, &mut text)?;
    Ok(text)
}
