//! Workers at one table.

ghost use Rattle.std.specs.Prelude.{◌≡◌, [], ◌∷◌, All, IfOk};
ghost use Rattle.data_workers.specs.Workers.{HasTable};

use crate::table::opened;
use crate::workers::work::sender;
use anyhow::bail;
use association_slots::{Control, SlotTable};
use data_workers::{Entry, Worker, crew};
use packet_claims::OpenGate;
use std::alloc::Global;
use std::thread::Threads;

/// A table whose only key is current, and workers that have seats at it.
#[derive(Drop)]
pub struct Team {
    tables: [SlotTable; 1],
    workers: Vec<Worker>,
    ghost here: { All (HasTable tables) workers.items },
}

impl Team {
    /// So many workers, with so many jobs each. All memory is taken.
    pub fn new(alloc: Global, count: u8, jobs: u32) -> anyhow::Result<Team> {
        let (table, mut control) = opened(alloc)?;
        let workers = all_hired(alloc, &table, &mut control, count, jobs)?;
        Ok(Team {
            tables: [table],
            workers,
        })
    }

    /// Does every job of each worker, in a thread for each.
    pub fn work<R: Threads + Sync>(&mut self, rt: &R) {
        crew(rt, &self.tables, self.workers.as_mut_slice(), &OpenGate);
    }

    /// How many frames were protected.
    pub fn finish(self) -> u64 {
        let mut count = 0u64;
        for worker in self.workers {
            let (_, log) = worker.finish();
            for entry in log.as_slice() {
                if matches!(entry, Entry::Taken(_)) {
                    count = count.saturating_add(1);
                }
            }
        }
        count
    }
}

/// So many workers at one table, with so many jobs each.
fn all_hired(
    alloc: Global,
    table: &SlotTable,
    control: &mut Control,
    count: u8,
    jobs: u32,
) -> anyhow::Result<Vec<Worker>>
    requires { control.old.table ≡ table.now }
    ensures { IfOk result (λ workers. All (HasTable (table.now ∷ [])) workers.items) }
{
    let mut workers = Vec::new(alloc);
    for _ in 0..count {
        workers.push(hired(alloc, table, control, jobs)?)?;
    }
    Ok(workers)
}

/// A worker with so many jobs. Eight seats may be out.
fn hired(
    alloc: Global,
    table: &SlotTable,
    control: &mut Control,
    jobs: u32,
) -> anyhow::Result<Worker>
    requires { control.old.table ≡ table.now }
    ensures same { control.new.table ≡ control.old.table }
    ensures worker { IfOk result (HasTable (table.now ∷ [])) }
{
    let sender = sender(alloc)?;
    if !control.has_room() {
        bail!("eight seats are out");
    }
    let seat = control.seat(table);
    match Worker::new(alloc, sender, seat, jobs) {
        Ok(worker) => Ok(worker),
        Err((_, err)) => Err(err.into()),
    }
}
