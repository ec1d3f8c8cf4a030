//! `check`: a transcript is judged.

ghost use Rattle.std.specs.Prelude.{◌≡◌};
ghost use Rattle.replay.specs.Sinks.{sunk};
ghost use Rattle.rollover_program.specs.declared.words.Order.TheVariants as orders;
ghost use Rattle.rollover_program.specs.Outside.{outside};
ghost use Rattle.rollover_program.specs.Carried.{IsCarriedOut};
ghost use Rattle.rollover_program.specs.commands.Check.{Tells, status_of, told};

use crate::status::{Status, status_of_unwritten};
use lan_base::{Sink, Source, write_all};
use std::alloc::Global;
use text_lines::Unfinished;
use transcript_check::{CheckFault, Verdict, judge};

/// Judges a transcript, and writes the verdict at its end.
pub fn check<S: Source, K: Sink>(alloc: Global, source: &mut S, sink: &mut K) -> Status
    ensures { IsCarriedOut orders.Check
        (outside S.Source K.Sink source.old source.new sink.old sink.new) result }
{
    match judge(alloc, source) {
        Ok(verdict) => tell(alloc, &verdict, sink),
        Err(why) => status_of(why),
    }
}

/// Writes the text of a verdict.
fn tell<K: Sink>(alloc: Global, verdict: &Verdict, sink: &mut K) -> Status
    ensures { Tells verdict.now (sunk (K.held sink.old) (K.faults sink.old))
        (sunk (K.held sink.new) (K.faults sink.new)) result }
{
    let Ok(text) = verdict.text(alloc) else {
        return Status::Memory;
    };
    match write_all(sink, &text) {
        Ok(()) => told(verdict),
        Err(why) => status_of_unwritten(why),
    }
}

/// The status of a verdict whose text was written.
fn told(verdict: &Verdict) -> Status
    ensures { result ≡ told verdict.now }
{
    if verdict.is_clean() {
        Status::Done
    } else {
        Status::Refuted
    }
}

/// The status where a transcript was not judged, or not drawn.
pub fn status_of(why: Unfinished<CheckFault>) -> Status
    ensures { result ≡ status_of why }
{
    match why {
        Unfinished::Refused { at, why } => Status::Transcript { line: at, why },
        Unfinished::Memory => Status::Memory,
        Unfinished::ReadFault => Status::ReadFault,
        Unfinished::WriteFault => Status::WriteFault,
        Unfinished::Limit => Status::CheckInput,
    }
}
