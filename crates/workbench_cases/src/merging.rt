//! The logs of workers that claimed packet numbers at once, merged with steps of control.

mod hand;
mod steps;

use hand::{WORKERS, append_logs};
use lan_core::Event;
use std::alloc::Global;
use std::thread::Threads;
use std::time::{Clock, Duration, Instant};
use steps::ticks;
use worker_races::merge::merge;

/// A merged list: how many steps and claims stand in it, and how long the merge took.
#[derive(Clone, Copy)]
pub struct Merged {
    pub steps: u64,
    pub claims: u64,
    pub took: Duration,
}

/// Merges the logs of stations, each of which has 8, with steps. All logs share the claims, and all
/// stations the steps.
pub fn merge_logs<R: Threads + Sync + Clock>(
    rt: &R,
    alloc: Global,
    stations: u8,
    claims: u32,
    steps: u32,
) -> anyhow::Result<Merged> {
    let numbers = share_of(claims, stations);
    let mut logs = Vec::new(alloc);
    for station in 0..stations {
        append_logs(rt, alloc, station, numbers / WORKERS, &mut logs)?;
    }
    let control = ticks(alloc, stations, share_of(steps, stations), numbers)?;
    let start = Instant::now(rt)?;
    let events = merge(alloc, control.as_slice(), logs.as_slice())?;
    let took = start.elapsed(rt)?;
    let claims = count_claims(&events);
    Ok(Merged {
        steps: (events.len() as u64).saturating_sub(claims),
        claims,
        took,
    })
}

/// What each of so many stations has of a count.
fn share_of(count: u32, stations: u8) -> u32 {
    count.checked_div(u32::from(stations)).unwrap_or(0)
}

/// How many events are claims.
fn count_claims(events: &[Event]) -> u64 {
    let mut claims = 0u64;
    for event in events {
        if matches!(event, Event::Claim { .. }) {
            claims = claims.saturating_add(1);
        }
    }
    claims
}
