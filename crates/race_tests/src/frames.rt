//! Frames that workers protect at once, as another station receives them.

use crate::desk::{BODY, CARD, Desk, Hand, opened, sci};
use data_workers::{Entry, Log};
use lan_base::{AssociationNumber, FRAME_MAX, Protected};
use packet_claims::OpenGate;
use rx_slots::{Arrival, RxSlots};
use std::process::Abort;
use std::thread;

/// The place of the station that receives, which is none that sends.
pub const RECEIVER: u8 = 0x0b;

/// The packet number under which a frame is accepted with the user data of everybody, or 0.
pub fn accepted(rt: &impl Abort, slots: &mut RxSlots, frame: &Protected) -> u32 {
    let octets = frame.octets.as_slice();
    assert!(rt; octets.len() <= FRAME_MAX);
    match slots.receive(octets).expect(rt, "memory") {
        Arrival::Accepted { pn, body } if body.as_slice() == BODY.as_slice() => pn,
        _ => 0,
    }
}

/// Each of the 500 frames of a worker has a greater number than the one before, and is accepted;
/// counts the numbers.
fn receives(rt: &impl Abort, slots: &mut RxSlots, log: &Log, received: &mut [u8; 4001]) {
    assert_eq!(rt; log.len(), 500);
    let mut last = 0;
    for entry in log.as_slice() {
        let Entry::Taken(frame) = entry else {
            assert!(rt; false);
            continue;
        };
        assert!(rt; last < frame.pn);
        last = frame.pn;
        let number = accepted(rt, slots, frame) as usize;
        let count = &mut received[number.min(4000)];
        *count = count.saturating_add(1);
    }
}

#[test]
fn protects_each_number_once_in_two_threads(rt: HostRuntime) {
    let (table, control) = opened(&rt, rt.alloc(), 1, 1);
    let mut desk = Desk {
        table: &table,
        control,
    };
    let mut hands = Vec::new(rt.alloc());
    for _ in 0..8 {
        hands
            .push(desk.hire(&rt, rt.alloc(), 0, 500))
            .expect(&rt, "memory");
    }
    thread::for_each_mut(
        &rt,
        hands.as_mut_slice(),
        2,
        &|_, hand: &mut Hand| { hand.work(&OpenGate) },
    );
    let mut slots = RxSlots::new(rt.alloc(), sci(RECEIVER), 4000);
    slots.install(AssociationNumber::An1, &CARD.sak);
    let mut received = [0u8; 4001];
    for hand in hands {
        receives(&rt, &mut slots, &hand.finish(), &mut received);
    }
    assert_eq!(rt; received[0], 0);
    for count in &received[1..] {
        assert_eq!(rt; *count, 1);
    }
}
