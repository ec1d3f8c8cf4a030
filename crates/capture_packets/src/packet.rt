//! A packet.

ghost use Rattle.std.specs.Prelude.{◌≡◌, [], false};

use std::alloc::Global;

/// What is told of a packet beside its octets.
#[derive(Clone, Copy, Debug, PartialEq, Eq)]
pub struct PacketHead {
    /// How many octets it had where it was captured.
    pub original: u32,
    /// When it was captured, in nanoseconds.
    pub nanos: u64,
    /// Whether its link is Ethernet.
    pub is_ethernet: bool,
    /// Whether no time was written with it: it has that of the packet before it, or 0.
    pub is_untimed: bool,
}

/// A captured packet.
#[derive(Drop)]
pub struct Packet {
    /// The octets that were kept.
    pub octets: Vec<u8>,
    pub head: PacketHead,
}

impl Packet {
    /// No packet yet: room for one.
    pub fn new(alloc: Global) -> Packet
        ensures octets { result.octets.items ≡ [] }
        ensures head { result.head ≡ record {
          original = 0;
          nanos = 0;
          is_ethernet = false;
          is_untimed = false;
        } }
    {
        Packet {
            octets: Vec::new(alloc),
            head: PacketHead {
                original: 0,
                nanos: 0,
                is_ethernet: false,
                is_untimed: false,
            },
        }
    }
}
