//! The work of the tests of protected frames.

ghost use Rattle.std.specs.Prelude.{◌≡◌, ◌≤◌, length, replicate, IfOk};
ghost use Rattle.workbench_cases.specs.Frames.{end_of, frame_tag_after, next_number, frame_numbered, receiver, receiver_after, tag_in};
ghost use Rattle.workbench_cases.specs.Work.{stepped};
ghost use Rattle.rx_slots.specs.Standing.{StandsFor};

use crate::ciphers::work::{stepped, test_key};
use aes_block::Secret;
use gcm_core::GcmKey;
use gcm_frames::protect;
use lan_base::{AssociationNumber, Mac, Octets, Sci, UserFrame};
use rx_slots::{Arrival, RxSlots};
use std::alloc::{AllocError, Global};

/// The station that sends.
const SENDER: Sci = Sci([2, 0, 0, 0, 0, 10, 0, 1]);

/// The station that receives.
const RECEIVER: Sci = Sci([2, 0, 0, 0, 0, 11, 0, 1]);

/// The association that the frames belong to.
const AN: AssociationNumber = AssociationNumber::An0;

/// A packet number that is as much below the next one is not late.
const WINDOW: u32 = 2;

/// How many octets of user data a frame has.
const USER_DATA: usize = 1488;

/// How many octets a protected frame has.
const PROTECTED: usize = 1532;

/// How many of them stand before its tag.
const BEFORE_TAG: usize = 1516;

/// The destination of all stations.
const ALL: Mac = Mac([255; 6]);

/// User data that rises by a step, for all stations.
fn user_data(alloc: Global, step: u8) -> Result<UserFrame, AllocError>
    ensures destination { IfOk result (λ user. user.destination.0 ≡ replicate 6 255) }
    ensures body { IfOk result (λ user. user.body ≡ stepped step 1488) }
    ensures count { IfOk result (λ user. length user.body ≡ 1488) }
{
    let body = Octets::from_slice(alloc, &stepped::<USER_DATA>(step))?;
    Ok(UserFrame {
        destination: ALL,
        body,
    })
}

/// The tag of a frame to a destination whose first octet is changed by each tag, protected under
/// the next packet number each time.
pub fn last_frame_tag(alloc: Global, count: u32) -> Result<[u8; 16], AllocError>
    ensures { IfOk result (λ tag. tag ≡ frame_tag_after count) }
{
    let key = GcmKey::of(test_key());
    let mut user = user_data(alloc, 7)?;
    let mut frame = Vec::with_capacity(alloc, PROTECTED)?;
    let mut tag = [0; 16];
    for done in 0..count {
        frame.clear();
        let number = done + 1;
        protect(&key, SENDER, AN, number, true, &user, &mut frame);
        tag = tag_in(&frame);
        user.destination.0[0] ^= tag[0];
    }
    Ok(tag)
}

/// The tag of a protected frame.
fn tag_in(frame: &[u8]) -> [u8; 16]
    requires { length frame.now ≡ 1532 }
    ensures { result ≡ tag_in frame.now }
{
    let (_, tag) = frame.split_at(BEFORE_TAG);
    let (tag, _) = tag.split_first_chunk::<16>().unwrap();
    *tag
}

/// The end of the user data of a frame that was received, after which the frame with the other
/// packet number is.
pub fn last_end(alloc: Global, count: u32) -> Result<[u8; 16], AllocError>
    ensures { IfOk result (λ end. end ≡ end_of (receiver_after count).last) }
{
    let first = frame_numbered(alloc, 1)?;
    let second = frame_numbered(alloc, 2)?;
    let mut slots = ready(alloc);
    let mut last = Arrival::Own;
    for _done in 0..count {
        last = slots.receive(next_frame(&first, &second, &last))?;
    }
    Ok(end_of(&last))
}

/// The receiver, to which the key of 128 bits was installed.
fn ready(alloc: Global) -> RxSlots
    ensures { StandsFor receiver 2 result (receiver_after 0).history }
{
    let mut slots = RxSlots::new(alloc, RECEIVER, WINDOW);
    slots.install(AN, &Secret::S128(stepped::<16>(1)));
    slots
}

/// A frame that is received, with its packet number as the step of its user data.
fn frame_numbered(alloc: Global, number: u8) -> Result<Vec<u8>, AllocError>
    requires { 1 ≤ number }
    ensures value { IfOk result (λ frame. frame.items ≡ frame_numbered number) }
    ensures count { IfOk result (λ frame. length frame.items ≡ 1532) }
{
    let user = user_data(alloc, number)?;
    let mut frame = Vec::with_capacity(alloc, PROTECTED)?;
    protect(
        &GcmKey::of(test_key()),
        SENDER,
        AN,
        u32::from(number),
        true,
        &user,
        &mut frame,
    );
    Ok(frame)
}

/// The frame that is received after an answer, of the two with packet numbers 1 and 2.
fn next_frame<'a>(first: &'a [u8], second: &'a [u8], last: &Arrival) -> &'a [u8]
    requires first { (first.now ≡ frame_numbered 1) × (length first.now ≡ 1532) }
    requires second { (second.now ≡ frame_numbered 2) × (length second.now ≡ 1532) }
    ensures value { result.now ≡ frame_numbered (next_number last.now) }
    ensures count { length result.now ≡ 1532 }
{
    match last {
        Arrival::Accepted { pn: 1, .. } => second,
        _ => first,
    }
}

/// The last 16 octets of accepted user data, zero where there are none.
fn end_of(last: &Arrival) -> [u8; 16]
    ensures { result ≡ end_of last.now }
{
    let Arrival::Accepted { body, .. } = last else {
        return [0; 16];
    };
    match body.as_slice().split_last_chunk::<16>() {
        Some((_, end)) => *end,
        None => [0; 16],
    }
}
