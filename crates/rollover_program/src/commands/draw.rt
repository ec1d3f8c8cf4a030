//! `draw`: the picture of a transcript's keys is written.

ghost use Rattle.replay.specs.Sinks.{sunk};
ghost use Rattle.rollover_program.specs.declared.words.Order.TheVariants as orders;
ghost use Rattle.rollover_program.specs.Outside.{outside};
ghost use Rattle.rollover_program.specs.Carried.{IsCarriedOut};
ghost use Rattle.rollover_program.specs.commands.Draw.{Shows};

use crate::commands::check::status_of;
use crate::status::{Status, status_of_unwritten};
use lan_base::{Sink, Source, write_all};
use std::alloc::Global;

/// Reads a transcript, and writes the picture of its keys at its end.
pub fn draw<S: Source, K: Sink>(alloc: Global, source: &mut S, sink: &mut K) -> Status
    ensures { IsCarriedOut orders.Draw
        (outside S.Source K.Sink source.old source.new sink.old sink.new) result }
{
    match transcript_picture::draw(alloc, source) {
        Ok(picture) => show(picture.as_slice(), sink),
        Err(why) => status_of(why),
    }
}

/// Writes a picture.
pub fn show<K: Sink>(picture: &[u8], sink: &mut K) -> Status
    ensures { Shows picture.now (sunk (K.held sink.old) (K.faults sink.old))
        (sunk (K.held sink.new) (K.faults sink.new)) result }
{
    match write_all(sink, picture) {
        Ok(()) => Status::Done,
        Err(why) => status_of_unwritten(why),
    }
}
