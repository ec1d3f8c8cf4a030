//! `run [--summary]`: a trace is performed.

ghost use Rattle.rollover_program.specs.declared.words.Order.TheVariants as orders;
ghost use Rattle.rollover_program.specs.Outside.{outside};
ghost use Rattle.rollover_program.specs.Carried.{IsCarriedOut};
ghost use Rattle.rollover_program.specs.Turned.{ShowsInTurn};

use crate::laws::law_tidy_runs_are_promised;
use crate::status::{Status, status_of_replay};
use lan_base::{Sink, Source};
use replay::AnyGate;
use std::alloc::Global;
use std::thread::Threads;

/// Performs a trace, for its transcript or for its summary.
pub fn run<T: Threads + Sync, S: Source, K: Sink>(
    rt: &T,
    alloc: Global,
    summary: bool,
    source: &mut S,
    sink: &mut K,
    gate: &AnyGate,
) -> Status
    ensures carried { IsCarriedOut (orders.Run summary)
        (outside S.Source K.Sink source.old source.new sink.old sink.new) result }
    ensures turned { ShowsInTurn S.Gave (orders.Run summary) source.old source.new
        (outside S.Source K.Sink source.old source.new sink.old sink.new) result }
{
    law_tidy_runs_are_promised();
    status_of_replay(replay::replay(rt, alloc, source, sink, gate, summary))
}
