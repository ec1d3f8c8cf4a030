//! Steps of control.

use lan_core::Event;
use std::alloc::{AllocError, Global};
use worker_races::merge::Step;

/// The epoch of the one key of each station.
const EPOCH: u32 = 1;

/// So many ticks of each station, which take turns. The packet number that a station shows rises
/// evenly up to the one behind so many.
pub fn ticks(
    alloc: Global,
    stations: u8,
    turns: u32,
    numbers: u32,
) -> Result<Vec<Step>, AllocError> {
    let mut steps = Vec::new(alloc);
    for turn in 0..turns {
        let behind = u64::from(numbers).saturating_mul(u64::from(turn) + 1) / u64::from(turns);
        for station in 0..stations {
            steps.push(Step {
                event: Event::Tick {
                    station,
                    next: behind.saturating_add(1),
                },
                before: Some(EPOCH),
                after: Some(EPOCH),
            })?;
        }
    }
    Ok(steps)
}
