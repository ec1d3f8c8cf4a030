//! Frames at the receive slots, step by step: a script put them together from OpenSSL's sealing.

ghost use Rattle.std.specs.Prelude.{◌≤◌, length};
ghost use Rattle.lan_base.specs.Ranges.{most_frame_octets};

use aes_block::Secret;
use lan_base::{AssociationNumber, Sci};
use rx_slots::{Arrival, RxSlots};
use std::alloc::Global;
use std::process::Abort;

/// Two keys of 128 and 256 bits.
const SHORT_KEY: Secret = Secret::S128([0, 0, 0, 0, 0, 0, 0, 0, 0, 0, 0, 0, 0, 0, 0, 3]);

const LONG_KEY: Secret = Secret::S256([
    0, 1, 2, 3, 4, 5, 6, 7, 8, 9, 10, 11, 12, 13, 14, 15, 16, 17, 18, 19, 20, 21, 22, 23, 24, 25,
    26, 27, 28, 29, 30, 31,
]);

/// The stations A and B.
const A: Sci = Sci([2, 0, 0, 0, 0, 0x0a, 0, 1]);

const B: Sci = Sci([2, 0, 0, 0, 0, 0x0b, 0, 1]);

/// Frames of A under the short key: number 1 and 2, number 1 with a changed tag, number 0, and the
/// last number without confidentiality.
const FIRST: &str =
    "ffffffffffff02000000000a88e52c040000000102000000000a000109773226206e3467e43c327172418bf947e3b3f3";

const SECOND: &str =
    "ffffffffffff02000000000a88e52c040000000202000000000a0001bf58ee22bd1b0b790b788529f9d9b7388b1953de";

const CHANGED: &str =
    "ffffffffffff02000000000a88e52c040000000102000000000a000109773226206e3467e43c327172418bf947e3b3f2";

const ZERO: &str =
    "ffffffffffff02000000000a88e52c040000000002000000000a0001ebe1cccb63fdb81c8d4ef8e85b07072345fe2ac9";

const LAST: &str =
    "ffffffffffff02000000000a88e52004ffffffff02000000000a000188b5ffffe344ccc70aea1cb9eee5d86b20ed123f";

/// A frame of A under association number 1, and one under the long key and number 2.
const OTHER: &str =
    "ffffffffffff02000000000a88e52d040000000102000000000a000109773226254a928a9de86cf19e1367d79a59ffa5";

const LONG: &str =
    "ffffffffffff02000000000a88e52e040000000502000000000a0001793da7ee51d5be9a2d202ea6aca8b54fcb25a829";

/// A frame of C, which writes no SCI.
const WITHOUT_SCI: &str =
    "ffffffffffff02000000000c88e54c040000000734c1d34920486aab75318d5bbe54c735fa148614";

/// A frame, and the answer to it.
struct Case {
    frame: &'static str,
    answer: &'static str,
}

/// What B is answered in turn, with window 0.
const ANSWERS: [Case; 10] = [
    Case {
        frame: "ffffffffffff02000000000a888e",
        answer: "Malformed(NotSec)",
    },
    Case {
        frame: ZERO,
        answer: "Late { next: 1 }",
    },
    Case {
        frame: FIRST,
        answer: "Accepted { pn: 1, body: Octets { octets: [136, 181, 0, 1] } }",
    },
    Case {
        frame: FIRST,
        answer: "Late { next: 2 }",
    },
    Case {
        frame: CHANGED,
        answer: "BadCheck",
    },
    Case {
        frame: OTHER,
        answer: "Missed { an: An1 }",
    },
    Case {
        frame: LONG,
        answer: "Accepted { pn: 5, body: Octets { octets: [136, 181, 0, 5] } }",
    },
    Case {
        frame: WITHOUT_SCI,
        answer: "Accepted { pn: 7, body: Octets { octets: [136, 181, 0, 7] } }",
    },
    Case {
        frame: LAST,
        answer: "Accepted { pn: 4294967295, body: Octets { octets: [136, 181, 255, 255] } }",
    },
    Case {
        frame: LAST,
        answer: "Late { next: 4294967296 }",
    },
];

/// The octets of a frame.
fn octets_of(rt: &impl Abort, alloc: Global, frame: &str) -> Vec<u8>
    ensures { length result.items ≤ most_frame_octets }
{
    let octets = hex::decode(alloc, frame).expect(rt, "octets");
    assert!(rt; octets.len() <= 65536);
    octets
}

/// The answer to a frame reads so.
fn is_so(rt: &impl Abort, alloc: Global, arrival: Arrival, answer: &str) {
    let arrival = format!(in alloc; "{arrival:?}").expect(rt, "memory");
    assert_eq!(rt; arrival.as_str(), answer);
}

/// The frame is answered so.
fn is_answered(rt: &impl Abort, alloc: Global, slots: &mut RxSlots, frame: &str, answer: &str) {
    let octets = octets_of(rt, alloc, frame);
    let arrival = slots.receive(octets.as_slice()).expect(rt, "memory");
    is_so(rt, alloc, arrival, answer);
}

#[test]
fn answers_in_turn(rt: HostRuntime) {
    let mut slots = RxSlots::new(rt.alloc(), B, 0);
    slots.install(AssociationNumber::An0, &SHORT_KEY);
    slots.install(AssociationNumber::An2, &LONG_KEY);
    for case in &ANSWERS {
        is_answered(&rt, rt.alloc(), &mut slots, case.frame, case.answer);
    }
    assert_eq!(rt; slots.lowest(AssociationNumber::An0), 4294967295);
    assert_eq!(rt; slots.lowest(AssociationNumber::An1), 1);
    assert_eq!(rt; slots.lowest(AssociationNumber::An2), 6);
    slots.install(AssociationNumber::An0, &SHORT_KEY);
    is_answered(&rt, rt.alloc(), &mut slots, ZERO, "Late { next: 1 }");
    slots.remove(AssociationNumber::An0);
    is_answered(&rt, rt.alloc(), &mut slots, FIRST, "Missed { an: An0 }");
    let mut own = RxSlots::new(rt.alloc(), A, 0);
    is_answered(&rt, rt.alloc(), &mut own, CHANGED, "Own");
}

/// A frame that was checked before another, and is admitted after it.
#[test]
fn admits_what_was_checked_before(rt: HostRuntime) {
    let mut slots = RxSlots::new(rt.alloc(), B, 0);
    slots.install(AssociationNumber::An0, &SHORT_KEY);
    let first = octets_of(&rt, rt.alloc(), FIRST);
    let second = octets_of(&rt, rt.alloc(), SECOND);
    let earlier = slots.check(first.as_slice()).expect(&rt, "memory");
    let later = slots.check(second.as_slice()).expect(&rt, "memory");
    let accepted = slots.admit(later).expect(&rt, "memory");
    is_so(
        &rt,
        rt.alloc(),
        accepted,
        "Accepted { pn: 2, body: Octets { octets: [136, 181, 0, 2] } }",
    );
    let late = slots.admit(earlier).expect(&rt, "memory");
    is_so(&rt, rt.alloc(), late, "Late { next: 3 }");
}
