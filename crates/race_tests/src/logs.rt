//! The logs of a small race: two stations, whose workers find no key, a key, and another one.

use crate::desk::{Desk, opened};
use crate::replacing::{Replacing, ReplacingGate};
use association_slots::SlotTable;
use data_workers::Log;
use packet_claims::OpenGate;
use std::alloc::Global;
use std::process::Abort;

/// The place of the first station.
pub const A: u8 = 0;

/// The place of the second one.
pub const B: u8 = 1;

/// The log of a worker that finds no key, and is refused so many times.
fn refused(rt: &impl Abort, alloc: Global, station: u8, jobs: u32) -> Log {
    let (table, control) = SlotTable::new(alloc, 1, 1).expect(rt, "a table");
    let mut desk = Desk {
        table: &table,
        control,
    };
    desk.hire(rt, alloc, station, jobs).log(&OpenGate)
}

/// Three logs of A. While epoch 1 is current, the third claims its numbers 1 and 2, and the second
/// number 3. Then epoch 2 is current: the second claims its numbers 1 and 2, the first 3 and 4.
fn claimed_at_a(rt: &impl Abort, alloc: Global) -> [Log; 3] {
    let (table, control) = opened(rt, alloc, 2, 1);
    let mut replacing = Replacing {
        table: &table,
        control,
    };
    let last = replacing.hire(rt, alloc, A, 2);
    let crossing = replacing.hire(rt, alloc, A, 3);
    let first = replacing.hire(rt, alloc, A, 2).log(&OpenGate);
    let crossing = crossing.log(&ReplacingGate::of(replacing));
    [last.log(&OpenGate), crossing, first]
}

/// Two logs of B. While epoch 1 is current, the second claims its numbers 1 and 2. Then nothing is
/// present any more, and the first is refused.
fn claimed_at_b(rt: &impl Abort, alloc: Global) -> [Log; 2] {
    let (table, control) = opened(rt, alloc, 1, 1);
    let mut desk = Desk {
        table: &table,
        control,
    };
    let first = desk.hire(rt, alloc, B, 2).log(&OpenGate);
    desk.unpoint();
    let late = desk.hire(rt, alloc, B, 1).log(&OpenGate);
    [late, first]
}

/// The logs of both stations, from 1: those of A that claimed, one with two refusals and one with
/// one; those of B that came when there was a key, and one with a refusal from before.
pub fn logs_of_both(rt: &impl Abort, alloc: Global) -> [Log; 8] {
    let [last, crossing, first] = claimed_at_a(rt, alloc);
    let [late, first_of_b] = claimed_at_b(rt, alloc);
    [
        last,
        crossing,
        first,
        refused(rt, alloc, A, 2),
        refused(rt, alloc, A, 1),
        late,
        first_of_b,
        refused(rt, alloc, B, 1),
    ]
}
