//! What is told of channels.

ghost use Rattle.std.specs.Prelude.{◌≡◌, [], IsTrue};

use lan_base::{AssociationNumber, Sci};
use std::alloc::Global;

/// An SCI that somebody has, and that had no channel.
#[derive(Clone, Copy, Debug, PartialEq, Eq)]
pub enum Opened {
    /// A channel is made for it.
    Add(Sci),
    /// There are as many channels as there may be, so there is none for it.
    Full(Sci),
}

/// The association of a key is made in a channel.
#[derive(Clone, Copy, Debug, PartialEq, Eq)]
pub struct Receive {
    pub sci: Sci,
    pub epoch: u32,
    pub an: AssociationNumber,
}

/// What one step tells: of channels first, ascending by SCI, then of keys, by epoch and then by SCI, and
/// at last of the channels that go, ascending.
#[derive(Drop)]
pub struct ChannelChanges {
    pub opened: Vec<Opened>,
    pub receives: Vec<Receive>,
    pub removed: Vec<Sci>,
}

impl ChannelChanges {
    /// Nothing is told. No memory is taken.
    pub fn none(alloc: Global) -> ChannelChanges
        ensures opened { result.opened.items ≡ [] }
        ensures receives { result.receives.items ≡ [] }
        ensures removed { result.removed.items ≡ [] }
    {
        ChannelChanges {
            opened: Vec::new(alloc),
            receives: Vec::new(alloc),
            removed: Vec::new(alloc),
        }
    }

    /// Whether nothing is told.
    pub fn is_none(&self) -> bool
        ensures opened { IsTrue result → self.now.opened.items ≡ [] }
        ensures receives { IsTrue result → self.now.receives.items ≡ [] }
        ensures removed { IsTrue result → self.now.removed.items ≡ [] }
    {
        self.opened.is_empty() && self.receives.is_empty() && self.removed.is_empty()
    }
}
