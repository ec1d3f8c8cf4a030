//! Doing the jobs of workers: those of one in this thread, those of many in a thread each, and
//! control in this thread beside them.

ghost use Rattle.std.specs.Prelude.{◌≡◌, All};
ghost use Rattle.std.specs.Thread.{IsSync};
ghost use Rattle.data_workers.specs.Workers.{HasTable, IsDone, AreDone};

use crate::steering::Steering;
use crate::worker::Worker;
use association_slots::SlotTable;
use packet_claims::Gate;
use std::thread::{Threads, for_each_mut, join_mut};

/// Does every job of a worker: one claim each, and the frame protected under the claimed card. It
/// takes no memory, and waits nowhere but in the gate.
pub fn work<G: Gate>(table: &SlotTable, worker: &mut Worker, gate: &G)
    requires { worker.old.seat.table ≡ table.now }
    ensures { IsDone worker.old worker.new }
{
    while worker.jobs() > 0 {
        worker.job(table, gate);
    }
}

/// Does every job of each worker, in as many threads as there are workers. The table of a worker is
/// the one at its station's place.
pub fn crew<R: Threads + Sync, G: Gate + Sync>(
    rt: &R,
    tables: &[SlotTable],
    workers: &mut [Worker],
    gate: &G,
)
    requires { All (HasTable tables.now) workers.old }
    ensures { AreDone workers.old workers.new }
{
    let threads = workers.len();
    if threads == 0 {
        return;
    }
    for_each_mut(
        rt,
        workers,
        threads,
        &|_: usize, worker: &mut Worker|
            requires { HasTable tables.now worker.now }
            ensures { IsDone worker.entry.now worker.exit.now }
        { work(&tables[usize::from(worker.station())], worker, gate) },
    );
}

/// Does every job of each worker, in a thread each, while control does what it has to do in this
/// thread. It returns once all are done.
pub fn beside<R: Threads + Sync, G: Gate + Sync, C: Steering>(
    rt: &R,
    tables: &[SlotTable],
    workers: &mut [Worker],
    gate: &G,
    control: &mut C,
)
    requires { All (HasTable tables.now) workers.old }
    ensures workers { AreDone workers.old workers.new }
    ensures control { C.Steers control.old control.new }
{
    join_mut(
        rt,
        &mut ||
            requires { IsSync R.row × IsSync G.row × All (HasTable tables.now) workers.now }
            ensures { AreDone workers.entry.now workers.exit.now }
        { crew(rt, tables, workers, gate) },
        &mut ||
            ensures { C.Steers control.entry.now control.exit.now }
        { control.run() },
    );
}
