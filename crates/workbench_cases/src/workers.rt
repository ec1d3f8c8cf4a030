//! Frames of 1,500 octets, protected by workers, in a thread each, or by one loop that takes the
//! memory of each frame as it comes to it.

mod hands;
mod plain;
mod team;
mod work;

pub use hands::Hands;
use std::alloc::Global;
use std::thread::Threads;
use std::time::{Clock, Duration, Instant};
use team::Team;

/// Lets workers, which share them, or a loop protect so many frames. Answers how many were
/// protected, and how long that took: the memory of workers is taken before.
pub fn protected<R: Threads + Sync + Clock>(
    rt: &R,
    alloc: Global,
    hands: Hands,
    frames: u32,
) -> anyhow::Result<(u64, Duration)> {
    match hands {
        Hands::Loop => by_loop(rt, alloc, frames),
        Hands::Workers(workers) => by_workers(rt, alloc, workers, frames),
    }
}

/// The same by one loop.
fn by_loop<R: Clock>(rt: &R, alloc: Global, frames: u32) -> anyhow::Result<(u64, Duration)> {
    let sender = work::sender(alloc)?;
    let start = Instant::now(rt)?;
    let protected = plain::protected(alloc, &sender, frames)?;
    let took = start.elapsed(rt)?;
    Ok((protected.len() as u64, took))
}

/// The same by so many workers.
fn by_workers<R: Threads + Sync + Clock>(
    rt: &R,
    alloc: Global,
    workers: u8,
    frames: u32,
) -> anyhow::Result<(u64, Duration)> {
    let jobs = frames.checked_div(u32::from(workers)).unwrap_or(0);
    let mut team = Team::new(alloc, workers, jobs)?;
    let start = Instant::now(rt)?;
    team.work(rt);
    let took = start.elapsed(rt)?;
    Ok((team.finish(), took))
}
