//! The measures of the picture. What lies from left to right is in tenths of its units.

use sheets::{Extent, Stretch};

/// Where all packets lie.
const EXTENT: Extent = Extent {
    left: 1_500,
    breadth: 10_200,
    least: 20,
};

/// Where packets lie.
#[derive(Clone, Copy)]
pub struct Scale {
    packets: u64,
}

impl Scale {
    /// That of packets 1 to this one.
    pub fn new(packets: u32) -> Scale {
        Scale {
            packets: u64::from(packets),
        }
    }

    /// How many packets are shown.
    pub fn packets(self) -> u64 {
        self.packets
    }

    /// Where a packet lies: the first one at the left, and the last one at the right.
    pub fn x(self, packet: u64) -> u64 {
        EXTENT.x(packet.saturating_sub(1), self.packets.saturating_sub(1))
    }

    /// From one packet to another one.
    pub fn stretch(self, from: u32, to: u32) -> Stretch {
        EXTENT.stretch(self.x(u64::from(from)), self.x(u64::from(to)))
    }
}
