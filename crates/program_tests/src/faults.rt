//! The top call at each failing call of its source and of its sink.

use crate::performing::{FIRST, GROUP, Left, Outside, SECOND, SIX_ROUNDS, STEADY, joined, perform};
use rollover_program::{AnyGate, Status};
use std::alloc::Global;
use std::process::Abort;
use std::thread::Threads;

/// A command, the parts of its text, and how often it reads and writes at least.
struct Case {
    word: &'static str,
    text: &'static [&'static str],
    reads: u64,
    writes: u64,
}

/// Two stations come to a key, then workers send; two groups; a transcript that is judged, one that
/// becomes a file, and one that becomes a picture. A trace is read in pieces and once more to find its
/// end, and at each event what is written goes out.
const CASES: [Case; 5] = [
    Case {
        word: "run",
        text: &[
            GROUP,
            FIRST,
            SECOND,
            SIX_ROUNDS,
            "race\nburst A 1 10 ffffffffffff 88b50001\nwhile\nend\n",
        ],
        reads: 4,
        writes: 28,
    },
    Case {
        word: "roll",
        text: &[
            GROUP,
            FIRST,
            SECOND,
            "group2 101112131415161718191a1b1c1d1e1f 05060708\nadopt A\nadopt B\nflow 6\n",
        ],
        reads: 4,
        writes: 28,
    },
    Case {
        word: "check",
        text: &[TWICE],
        reads: 4,
        writes: 1,
    },
    Case {
        word: "capture",
        text: &[HELLO],
        reads: 5,
        writes: 2,
    },
    Case {
        word: "draw",
        text: &[TWICE],
        reads: 4,
        writes: 1,
    },
];

/// A packet number that is claimed twice, which is told once the verdict is written.
const TWICE: &str = "\
life A 000000000000000000000001
install A 000000000000000000000001 1 an 0 epoch 1 sak 00000000000000000000000000000003
claim A an 0 epoch 1 pn 1
claim A an 0 epoch 1 pn 2
claim A an 0 epoch 1 pn 1
";

/// A first hello.
const HELLO: &str = "\
life A 000000000000000000000001
tick A 1 next 0
frame 1 A mka 0180c200000302000000000a888e030500340110602002000000000a0001000000000000000000000001000000010080c201010203046afea33c197d668f2ef5cc6f5a3cbae8
";

/// Which side fails.
#[derive(Clone, Copy)]
enum Side {
    Source,
    Sink,
}

/// This side fails at this call.
fn failing(side: Side, call: u64) -> Outside {
    match side {
        Side::Source => Outside {
            failing_read: call,
            ..STEADY
        },
        Side::Sink => Outside {
            failing_write: call,
            ..STEADY
        },
    }
}

/// Why the program ends where this side fails.
fn cause(side: Side) -> Status {
    match side {
        Side::Source => Status::ReadFault,
        Side::Sink => Status::WriteFault,
    }
}

/// At each failing call of one side what was written is a front of the whole, and no shorter than at
/// the call before; behind the last call the whole is written. How many calls fail.
fn fronts<R: Threads + Abort + Sync>(rt: &R, alloc: Global, case: &Case, side: Side) -> u64 {
    let text = joined(rt, alloc, case.text);
    let whole = perform(rt, alloc, case.word, &text, STEADY, &AnyGate::Open);
    let mut before = 0;
    for call in 1..2000u64 {
        let outside = failing(side, call);
        let left = perform(rt, alloc, case.word, &text, outside, &AnyGate::Open);
        if left.status == whole.status {
            assert!(rt; left.held == whole.held, "{}", case.word);
            return call - 1;
        }
        assert_eq!(rt; left.status, cause(side), "{}", case.word);
        before = lengthened(rt, side, &whole, &left, before);
    }
    0
}

/// What is left is a front of the whole that is no shorter than this, and not the whole where the sink
/// failed; its length.
fn lengthened(rt: &impl Abort, side: Side, whole: &Left, left: &Left, before: usize) -> usize {
    let len = left.held.len();
    assert!(rt; whole.held.as_slice().starts_with(left.held.as_slice()));
    assert!(rt; before <= len);
    assert!(rt; matches!(side, Side::Source) || len < whole.held.len());
    len
}

#[test]
fn leaves_a_front_at_each_fault(rt: HostRuntime) {
    for case in &CASES {
        let reads = fronts(&rt, rt.alloc(), case, Side::Source);
        assert!(rt; case.reads <= reads, "{} {reads}", case.word);
        let writes = fronts(&rt, rt.alloc(), case, Side::Sink);
        assert!(rt; case.writes <= writes, "{} {writes}", case.word);
    }
}
