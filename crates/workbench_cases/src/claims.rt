//! Packet numbers of one epoch, claimed from seats, each in a thread of its own, so that anybody can
//! time it beside a plain atomic addition.

mod hand;

use crate::table::opened;
use hand::Desk;
use std::alloc::Global;
use std::thread;
use std::thread::Threads;

/// How many numbers are claimed.
const NUMBERS: u32 = 10_000_000;

/// Lets threads claim numbers of one epoch, one for each of so many seats, of which there are eight,
/// and answers how many were claimed.
pub fn claimed<R: Threads + Sync>(rt: &R, alloc: Global, seats: u8) -> anyhow::Result<u64> {
    let (table, control) = opened(alloc)?;
    let mut desk = Desk::new(&table, control);
    let mut hands = Vec::new(alloc);
    for _ in 0..seats {
        hands.extend(desk.sit())?;
    }
    let each = NUMBERS.checked_div(u32::from(seats)).unwrap_or(0);
    thread::for_each_mut(
        rt,
        hands.as_mut_slice(),
        usize::from(seats).max(1),
        &|_, hand| hand.fill(each),
    );
    let mut claimed = 0u64;
    for hand in &hands {
        claimed = claimed.saturating_add(hand.claimed());
    }
    Ok(claimed)
}
