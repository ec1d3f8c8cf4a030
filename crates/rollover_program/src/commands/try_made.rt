//! `try N`: the trace that is made of a number is performed for its summary.

ghost use Rattle.std.specs.Prelude.{◌≡◌, ◌≢◌};
ghost use Rattle.lan_base.specs.Faults.{Rose};
ghost use Rattle.replay.specs.Sinks.{sunk};
ghost use Rattle.rollover_program.specs.declared.status.Status.TheVariants as statuses;
ghost use Rattle.rollover_program.specs.commands.Try.{EndsTried};

use crate::commands::make::made;
use crate::commands::run::run;
use crate::laws::law_tidy_runs_are_promised;
use crate::status::Status;
use lan_base::{Octets, Sink, SteadySource};
use lan_schedule::law_lines_leave_a_tidy_world;
use replay::AnyGate;
use std::alloc::Global;
use std::thread::Threads;

/// Performs the trace that is made of a number, for its summary.
pub fn try_made<T: Threads + Sync, K: Sink>(
    rt: &T,
    alloc: Global,
    number: u32,
    sink: &mut K,
    gate: &AnyGate,
) -> Status
    ensures ends { EndsTried number (sunk (K.held sink.old) (K.faults sink.old))
        (sunk (K.held sink.new) (K.faults sink.new)) result }
    ensures no_usage { result ≢ statuses.Usage }
    ensures write_cause { result ≡ statuses.WriteFault
        → Rose (K.faults sink.old) (K.faults sink.new) }
{
    law_tidy_runs_are_promised();
    law_lines_leave_a_tidy_world();
    let Ok(text) = made(alloc, number) else {
        return Status::Memory;
    };
    let mut source = SteadySource::new(Octets::of(text));
    run(rt, alloc, true, &mut source, sink, gate)
}
