//! The measures of the picture. What lies from left to right is in tenths of its units.

use sheets::{Extent, Stretch};

/// Where all ticks lie.
const EXTENT: Extent = Extent {
    left: 1_100,
    breadth: 10_100,
    least: 12,
};

/// Where ticks lie.
#[derive(Clone, Copy)]
pub struct Scale {
    ticks: u64,
}

impl Scale {
    /// That of ticks up to this one.
    pub fn new(clock: u32) -> Scale {
        Scale {
            ticks: u64::from(clock) + 1,
        }
    }

    /// How many ticks are shown.
    pub fn ticks(self) -> u64 {
        self.ticks
    }

    /// Where a tick begins.
    pub fn x(self, tick: u64) -> u64 {
        EXTENT.x(tick, self.ticks)
    }

    /// From one tick to another one.
    pub fn stretch(self, from: u64, to: u64) -> Stretch {
        EXTENT.stretch(self.x(from), self.x(to))
    }
}
