//! Crews: at two stations, and at once.

ghost use Rattle.std.specs.Prelude.{◌≡◌};

use crate::desk::{hired, opened};
use crate::meeting::Meeting;
use association_slots::SlotTable;
use data_workers::{Entry, Worker, crew};
use packet_claims::{Gate, NoClaim, OpenGate};
use std::alloc::Global;
use std::process::Abort;
use std::thread::Threads;

/// What came of a job, but for the octets of its frame.
#[derive(Clone, Copy, Debug, PartialEq, Eq)]
enum Outcome {
    Frame { station: u8 },
    Refusal { station: u8, why: NoClaim },
}

/// What came of the job of an entry.
fn outcome_of(entry: &Entry) -> Outcome {
    match entry {
        Entry::Taken(frame) => Outcome::Frame {
            station: frame.station,
        },
        Entry::Refused { station, why } => Outcome::Refusal {
            station: *station,
            why: *why,
        },
    }
}

/// What comes of each job of each worker of a crew: the first and the third are of station 0, which
/// has a key, and the second is of station 1, which has none.
const CREW: [Outcome; 3] = [
    Outcome::Frame { station: 0 },
    Outcome::Refusal {
        station: 1,
        why: NoClaim::NoKey { after: 0 },
    },
    Outcome::Frame { station: 0 },
];

/// Lets three workers do their jobs, the second at a table of its own.
fn at_two_stations<R: Threads + Abort + Sync>(
    rt: &R,
    alloc: Global,
    here: SlotTable,
    there: SlotTable,
    first: Worker,
    second: Worker,
    third: Worker,
) -> Vec<Worker>
    requires first { (first.sender.station ≡ 0) × (first.seat.table ≡ here) }
    requires second { (second.sender.station ≡ 1) × (second.seat.table ≡ there) }
    requires third { (third.sender.station ≡ 0) × (third.seat.table ≡ here) }
{
    let tables = [here, there];
    let mut workers = Vec::new(alloc);
    workers.push(first).expect(rt, "memory");
    workers.push(second).expect(rt, "memory");
    workers.push(third).expect(rt, "memory");
    crew(rt, &tables, workers.as_mut_slice(), &OpenGate);
    workers
}

#[test]
fn a_crew_works_at_its_stations(rt: HostRuntime) {
    let (here, mut front) = opened(&rt, rt.alloc(), 1, 1);
    let (there, mut back) = SlotTable::new(rt.alloc(), 1, 1).expect(&rt, "a table");
    let first = hired(&rt, rt.alloc(), 0, &here, &mut front, 3);
    let second = hired(&rt, rt.alloc(), 1, &there, &mut back, 3);
    let third = hired(&rt, rt.alloc(), 0, &here, &mut front, 3);
    let workers = at_two_stations(&rt, rt.alloc(), here, there, first, second, third);
    let mut wanted = CREW.iter();
    for worker in workers {
        let want = wanted.next().expect(&rt, "as many workers");
        assert_eq!(rt; worker.jobs(), 0);
        let (_, log) = worker.finish();
        assert_eq!(rt; log.len(), 3);
        for entry in log.as_slice() {
            assert_eq!(rt; outcome_of(entry), *want);
        }
    }
}

/// Lets two workers do their jobs at one table, with a gate.
fn at_one_station<R: Threads + Abort + Sync, G: Gate + Sync>(
    rt: &R,
    alloc: Global,
    here: SlotTable,
    first: Worker,
    second: Worker,
    gate: &G,
)
    requires first { (first.sender.station ≡ 0) × (first.seat.table ≡ here) }
    requires second { (second.sender.station ≡ 0) × (second.seat.table ≡ here) }
{
    let tables = [here];
    let mut workers = Vec::new(alloc);
    workers.push(first).expect(rt, "memory");
    workers.push(second).expect(rt, "memory");
    crew(rt, &tables, workers.as_mut_slice(), gate);
}

#[test]
fn two_of_a_crew_work_at_once(rt: HostRuntime) {
    let (here, mut control) = opened(&rt, rt.alloc(), 1, 1);
    let first = hired(&rt, rt.alloc(), 0, &here, &mut control, 3);
    let second = hired(&rt, rt.alloc(), 0, &here, &mut control, 3);
    let gate = Meeting::of(2);
    at_one_station(&rt, rt.alloc(), here, first, second, &gate);
    assert_eq!(rt; gate.late(), 0);
    assert_eq!(rt; gate.come(), 6);
}
