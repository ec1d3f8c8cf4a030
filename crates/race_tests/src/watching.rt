//! Control that looks at the next number while workers claim.

ghost use Rattle.std.specs.Prelude.{◌≡◌, length, false};
ghost use Rattle.association_slots.specs.Views.{slot};
ghost use Rattle.lan_base.specs.declared.association_number.AssociationNumber.TheVariants.{An1};

use crate::desk::{hired, opened};
use crate::meeting::Meeting;
use association_slots::{Control, SlotTable};
use data_workers::{Entry, Steering, Worker, beside};
use lan_base::AssociationNumber;
use std::alloc::Global;
use std::process::Abort;
use std::thread::Threads;

/// Control of a table whose slot of AN 1 is open, with a handle of its own, and what it saw.
#[derive(Drop)]
struct Watching<'a> {
    table: SlotTable,
    control: Control,
    gate: &'a Meeting,
    seen: [u64; 3],
    ghost here: { control.table ≡ table },
    ghost four: { length control.view.slots ≡ 4 },
    ghost shown: { (slot control.view An1).shut ≡ false },
}

impl Watching<'_> {
    /// The next number of the slot of AN 1.
    fn look(&mut self) -> u64
        ensures { self.new.control.table ≡ self.old.control.table }
    {
        self.control.next_of(&self.table, AssociationNumber::An1)
    }
}

impl Steering for Watching<'_> {
    ghost use Rattle.std.specs.Prelude.{◌≡◌};

    ghost Steers = { λ before after. after.control.table ≡ before.control.table };

    /// Waits until the workers have come, and looks while they work.
    fn run(&mut self) {
        self.gate.meet();
        self.seen = [self.look(), self.look(), self.look()];
    }
}

/// Lets two workers do their jobs at one table, beside control.
fn watched<R: Threads + Abort + Sync>(
    rt: &R,
    alloc: Global,
    here: SlotTable,
    first: Worker,
    second: Worker,
    control: &mut Watching,
    gate: &Meeting,
) -> Vec<Worker>
    requires first { (first.sender.station ≡ 0) × (first.seat.table ≡ here) }
    requires second { (second.sender.station ≡ 0) × (second.seat.table ≡ here) }
{
    let tables = [here];
    let mut workers = Vec::new(alloc);
    workers.push(first).expect(rt, "memory");
    workers.push(second).expect(rt, "memory");
    beside(rt, &tables, workers.as_mut_slice(), gate, control);
    workers
}

/// Each of the three jobs of a worker has a number; the sum of them.
fn sum_of(rt: &impl Abort, worker: Worker) -> u32 {
    let (_, log) = worker.finish();
    assert_eq!(rt; log.len(), 3);
    let mut sum = 0u32;
    for entry in log.as_slice() {
        let Entry::Taken(frame) = entry else {
            assert!(rt; false);
            continue;
        };
        sum = sum.saturating_add(frame.pn);
    }
    sum
}

#[test]
fn control_looks_while_two_workers_claim(rt: HostRuntime) {
    let (table, mut control) = opened(&rt, rt.alloc(), 1, 1);
    let first = hired(&rt, rt.alloc(), 0, &table, &mut control, 3);
    let second = hired(&rt, rt.alloc(), 0, &table, &mut control, 3);
    let gate = Meeting::of(3);
    let mut control = Watching {
        table: table.handle().expect(&rt, "a handle"),
        control,
        gate: &gate,
        seen: [0; 3],
    };
    let workers = watched(&rt, rt.alloc(), table, first, second, &mut control, &gate);
    assert_eq!(rt; gate.late(), 0);
    assert_eq!(rt; gate.come(), 7);
    let mut least = 1;
    for next in control.seen {
        assert!(rt; least <= next && next <= 7);
        least = next;
    }
    assert_eq!(rt; control.look(), 7);
    let mut sum = 0u32;
    for worker in workers {
        sum = sum.saturating_add(sum_of(&rt, worker));
    }
    assert_eq!(rt; sum, 21);
}
