//! The merged list of the small race.

use crate::logs::{A, B, logs_of_both};
use Mark::{Claims, Delivers, Restarts, Ticks};
use data_workers::Log;
use lan_core::Event;
use std::alloc::Global;
use std::process::Abort;
use worker_races::merge::{Step, merge};

/// An event of a race.
#[derive(Clone, Copy, Debug, PartialEq, Eq)]
enum Mark {
    /// The station, and the number that it shows.
    Ticks(u8, u64),
    /// The frame, and the station.
    Delivers(u32, u8),
    Restarts(u8),
    /// The station, the log from 1, and the packet number, 0 for a refusal.
    Claims(u8, u32, u32),
    Other,
}

/// What an event is.
fn mark_of(event: &Event) -> Mark {
    match event {
        Event::Tick { station, next } => Ticks(*station, *next),
        Event::Deliver { frame, station } => Delivers(*frame, *station),
        Event::Restart { station } => Restarts(*station),
        Event::Claim { station, user, pn } => Claims(*station, *user, *pn),
        _ => Mark::Other,
    }
}

/// The event of a mark, which is no other one.
fn event_of(mark: Mark) -> Event {
    match mark {
        Ticks(station, next) => Event::Tick { station, next },
        Delivers(frame, station) => Event::Deliver { frame, station },
        Restarts(station) => Event::Restart { station },
        Claims(station, user, pn) => Event::Claim { station, user, pn },
        Mark::Other => Event::Emit,
    }
}

/// A step of control: its event, and the epochs that transmit before and after it.
#[derive(Clone, Copy)]
struct Moves(Mark, Option<u32>, Option<u32>);

/// What control does: A begins epoch 1 and then epoch 2, B begins epoch 1 and loses it.
const CONTROL: [Moves; 9] = [
    Moves(Ticks(A, 0), None, Some(1)),
    Moves(Ticks(B, 0), None, None),
    Moves(Ticks(B, 0), None, Some(1)),
    Moves(Ticks(A, 3), Some(1), Some(1)),
    Moves(Delivers(9, A), Some(1), Some(2)),
    Moves(Ticks(A, 1), Some(2), Some(2)),
    Moves(Ticks(A, 4), Some(2), Some(2)),
    Moves(Ticks(B, 2), Some(1), Some(1)),
    Moves(Restarts(B), Some(1), None),
];

/// The list of the whole race.
const WHOLE: [Mark; 23] = [
    // Refusals from before A's first key, before the step that begins it; log before log.
    Claims(A, 4, 0),
    Claims(A, 4, 0),
    Claims(A, 5, 0),
    Ticks(A, 0),
    Ticks(B, 0),
    // A step of B without a key does not excuse B's refusal.
    Claims(B, 8, 0),
    Ticks(B, 0),
    Claims(A, 3, 1),
    Claims(A, 3, 2),
    Ticks(A, 3),
    // The number that was shown last is claimed after that, and before the key is replaced.
    Claims(A, 2, 3),
    Delivers(9, A),
    Ticks(A, 1),
    // Number before number, whatever the log.
    Claims(A, 2, 1),
    Claims(A, 2, 2),
    Claims(A, 1, 3),
    Ticks(A, 4),
    Claims(B, 7, 1),
    Ticks(B, 2),
    Claims(B, 7, 2),
    Restarts(B),
    // What no step ends.
    Claims(A, 1, 4),
    Claims(B, 6, 0),
];

/// The list where control stops behind its third step: all claims with a number are at the end,
/// station by station, epoch by epoch, and a refusal behind the claims of its epoch.
const CUT: [Mark; 17] = [
    Claims(A, 4, 0),
    Claims(A, 4, 0),
    Claims(A, 5, 0),
    Ticks(A, 0),
    Ticks(B, 0),
    Claims(B, 8, 0),
    Ticks(B, 0),
    Claims(A, 3, 1),
    Claims(A, 3, 2),
    Claims(A, 2, 3),
    Claims(A, 2, 1),
    Claims(A, 2, 2),
    Claims(A, 1, 3),
    Claims(A, 1, 4),
    Claims(B, 7, 1),
    Claims(B, 7, 2),
    Claims(B, 6, 0),
];

/// The steps of control.
fn steps_of(rt: &impl Abort, alloc: Global, moves: &[Moves]) -> Vec<Step> {
    let mut steps = Vec::new(alloc);
    for Moves(mark, before, after) in moves {
        let step = Step {
            event: event_of(*mark),
            before: *before,
            after: *after,
        };
        steps.push(step).expect(rt, "memory");
    }
    steps
}

/// The events of these logs and these steps are, in their order, those of the marks.
fn merges(rt: &impl Abort, alloc: Global, moves: &[Moves], logs: &[Log], marks: &[Mark]) {
    let steps = steps_of(rt, alloc, moves);
    let events = merge(alloc, steps.as_slice(), logs).expect(rt, "memory");
    assert_eq!(rt; events.len(), marks.len());
    for (event, mark) in events.iter().zip(marks) {
        assert_eq!(rt; mark_of(event), *mark);
    }
}

#[test]
fn merges_the_claims_of_a_race(rt: HostRuntime) {
    let logs = logs_of_both(&rt, rt.alloc());
    merges(&rt, rt.alloc(), &CONTROL, &logs, &WHOLE);
    merges(&rt, rt.alloc(), &CONTROL[..3], &logs, &CUT);
}
