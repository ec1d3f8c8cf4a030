//! Threads that have to be at work at once, since a gate holds one until another has come.

use crate::performing::{FIRST, GROUP, SECOND, SIX_ROUNDS, STEADY, THIRD, joined, perform};
use packet_claims::{Gate, Point};
use rollover_program::{AnyGate, Status};
use std::alloc::Global;
use std::process::Abort;
use std::sync::Arc;
use std::sync::atomic::AtomicUsize;
use std::sync::atomic::Ordering::SeqCst;
use std::thread;
use std::thread::Threads;

/// How often a thread looks for another before it gives up.
const TURNS: u32 = 10_000_000;

/// How often the current word of the first station and of others moved, how often workers came before
/// their addition and behind their claim, and for how many a bounded time was too short.
#[derive(Drop)]
struct Counts {
    first: AtomicUsize,
    others: AtomicUsize,
    loaded: AtomicUsize,
    taken: AtomicUsize,
    late: AtomicUsize,
}

impl Counts {
    /// Waits until so many have come, for a bounded time.
    fn wait_for(&self, come: &AtomicUsize, wanted: usize) {
        for _ in 0..TURNS {
            if come.load(SeqCst) >= wanted {
                return;
            }
            thread::yield_now();
        }
        self.late.fetch_add(1, SeqCst);
    }
}

/// Whom a gate holds.
#[derive(Clone, Copy, PartialEq, Eq)]
enum Holds {
    Nobody,
    /// Each worker until two have loaded.
    Workers,
    /// Each worker until control has moved the first station's word a second time, and control there
    /// until a worker has loaded.
    Crossing,
}

/// A gate that counts who comes.
#[derive(Drop)]
struct Counting {
    holds: Holds,
    counts: Arc<Counts>,
}

impl Gate for Counting {
    fn at(&self, point: Point) {
        let counts = &*self.counts;
        match point {
            Point::Pointed { station: 0 } => {
                let before = counts.first.fetch_add(1, SeqCst);
                if before == 1 && self.holds == Holds::Crossing {
                    counts.wait_for(&counts.loaded, 1);
                }
            }
            Point::Pointed { .. } => {
                counts.others.fetch_add(1, SeqCst);
            }
            Point::Loaded { .. } => {
                counts.loaded.fetch_add(1, SeqCst);
                match self.holds {
                    Holds::Nobody => {}
                    Holds::Workers => counts.wait_for(&counts.loaded, 2),
                    Holds::Crossing => counts.wait_for(&counts.first, 2),
                }
            }
            Point::Taken { .. } => {
                counts.taken.fetch_add(1, SeqCst);
            }
        }
    }
}

/// Lines of a trace behind the first key of two stations, whom the gate holds, how often the word of the
/// first station and those of the others move, how many numbers are claimed, and how often a line
/// begins so.
struct Case {
    name: &'static str,
    lines: &'static [&'static str],
    holds: Holds,
    moved: [usize; 2],
    taken: usize,
    begin: &'static str,
    times: usize,
}

const SEND: &str = "send A ffffffffffff 88b50001\n";

const CASES: [Case; 3] = [
    Case {
        name: "two workers are at work at once",
        lines: &["race\nburst A 2 1000 ffffffffffff 88b50001\nwhile\nend\n"],
        holds: Holds::Workers,
        moved: [1, 1],
        taken: 1000,
        begin: "claim A an 0 epoch 1 pn ",
        times: 1000,
    },
    Case {
        name: "a worker loads the word that shows the earlier key, and adds once that is replaced",
        lines: &[
            THIRD,
            "race\nburst A 1 10 ffffffffffff 88b50001\nwhile\nflow 36\nend\n",
        ],
        holds: Holds::Crossing,
        moved: [2, 3],
        taken: 10,
        begin: "claim A an 1 epoch 2 pn ",
        times: 10,
    },
    Case {
        name: "words move as keys begin, and as a restart drops them",
        lines: &[
            SEND,
            SEND,
            SEND,
            "race\nburst B 2 4 ffffffffffff 88b50001\nwhile\nend\nrestart A\nrestart B\n",
        ],
        holds: Holds::Nobody,
        moved: [2, 2],
        taken: 7,
        begin: "claim ",
        times: 7,
    },
];

/// Nobody has come.
fn nobody_came(rt: &impl Abort, alloc: Global) -> Arc<Counts> {
    let counts = Counts {
        first: AtomicUsize::new(0),
        others: AtomicUsize::new(0),
        loaded: AtomicUsize::new(0),
        taken: AtomicUsize::new(0),
        late: AtomicUsize::new(0),
    };
    Arc::new(alloc, counts).expect(rt, "memory")
}

/// A gate that counts here.
fn gate(rt: &impl Abort, alloc: Global, holds: Holds, counts: &Arc<Counts>) -> AnyGate {
    let counts = counts.clone().expect(rt, "memory");
    let gate = Box::new(alloc, Counting { holds, counts });
    AnyGate::Other(gate.expect(rt, "memory"))
}

/// How many lines of a text begin so.
fn count(rt: &impl Abort, alloc: Global, text: &[u8], begin: &str) -> usize {
    let text = String::from_utf8_lossy(alloc, text).expect(rt, "memory");
    let mut found = 0usize;
    for line in text.lines() {
        if line.starts_with(begin) {
            found = found.saturating_add(1);
        }
    }
    found
}

/// The whole trace of a case.
fn trace(rt: &impl Abort, alloc: Global, case: &Case) -> Vec<u8> {
    let mut trace = joined(rt, alloc, &[GROUP, FIRST, SECOND, SIX_ROUNDS]);
    let lines = joined(rt, alloc, case.lines);
    trace.extend_from_slice(&lines).expect(rt, "memory");
    trace
}

/// Each thread comes in time, and as often as the case says.
fn passes<R: Threads + Abort + Sync>(rt: &R, alloc: Global, case: &Case) {
    let counts = nobody_came(rt, alloc);
    let gate = gate(rt, alloc, case.holds, &counts);
    let left = perform(rt, alloc, "run", &trace(rt, alloc, case), STEADY, &gate);
    assert_eq!(rt; left.status, Status::Done, "{}", case.name);
    assert_eq!(rt; counts.late.load(SeqCst), 0, "{}", case.name);
    let moved = [counts.first.load(SeqCst), counts.others.load(SeqCst)];
    assert_eq!(rt; moved, case.moved, "{}", case.name);
    assert_eq!(rt; counts.taken.load(SeqCst), case.taken, "{}", case.name);
    assert!(rt; counts.loaded.load(SeqCst) >= case.taken, "{}", case.name);
    let times = count(rt, alloc, &left.held, case.begin);
    assert_eq!(rt; times, case.times, "{}", case.name);
}

#[test]
fn threads_meet_at_a_gate(rt: HostRuntime) {
    for case in &CASES {
        passes(&rt, rt.alloc(), case);
    }
}
