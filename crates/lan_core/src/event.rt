//! Events: what happens in a group.

use lan_base::{Name, Octets, Sci};

/// One atomic action of one actor. A station is named by its place in the order of the starts, from
/// 0, a frame of the air and a user frame by its number, from 1.
#[derive(Drop)]
pub enum Event {
    /// A station begins its first life.
    Start { name: Name, sci: Sci, priority: u8 },
    /// A tick of 0.1 s at one station. `next` is the packet number that its transmitting
    /// association shows as the next one, 0 where no key transmits.
    Tick { station: u8, next: u64 },
    /// A frame of the air reaches a station.
    Deliver { frame: u32, station: u8 },
    /// A station loses all that it knows, and begins a new life.
    Restart { station: u8 },
    /// A station protects a user frame under a packet number, 0 where it got none.
    Claim { station: u8, user: u32, pn: u32 },
    /// The oldest protected frame that isn't on the air yet is put there.
    Emit,
    /// Foreign octets reach a station.
    Inject { station: u8, octets: Octets },
}
