//! A receive channel, and a key that is held.

ghost use Rattle.std.specs.Prelude.{◌≡◌, ◌&&◌};
ghost use Rattle.std.specs.List.{list_all};
ghost use Rattle.receive_channels.specs.Channels.{goes, has, lacks, newest_of, receive, renewed, stays};

use crate::changes::Receive;
use lan_base::{AssociationNumber, Sci};

/// A key that is held and that the data path may have: its epoch, counted from 1, and its association
/// number.
#[derive(Clone, Copy, Debug, PartialEq, Eq)]
pub struct ChannelKey {
    pub epoch: u32,
    pub an: AssociationNumber,
}

/// A receive channel: its SCI, and the epoch of the newest key that came into it, 0 before the first. As
/// epochs rise, its associations are those of the held keys that are not newer.
#[derive(Clone, Copy, PartialEq, Eq)]
pub struct Channel {
    pub sci: Sci,
    pub newest: u32,
}

impl Channel {
    /// A channel that no key came into.
    pub fn empty(sci: Sci) -> Channel
        ensures { result ≡ record { sci = sci; newest = 0 } }
    {
        Channel { sci, newest: 0 }
    }

    /// Whether a key is newer than all that came into it.
    fn lacks(&self, key: &ChannelKey) -> bool
        ensures { result ≡ lacks key.now self.now }
    {
        self.newest < key.epoch
    }

    /// Whether each of these keys is newer than all that came into it.
    fn lacks_all(&self, keys: &[ChannelKey]) -> bool
        ensures { result ≡ list_all (λ key. lacks key self.now) keys.now }
    {
        keys.iter().all(|key| self.lacks(key))
    }

    /// Whether it is somebody's, and lacks a key.
    pub fn is_due(&self, scis: &[Sci], key: &ChannelKey) -> bool
        ensures { result ≡ (has scis.now self.now.sci && lacks key.now self.now) }
    {
        has(scis, &self.sci) && self.lacks(key)
    }

    /// A key comes into it.
    pub fn receive(&self, key: &ChannelKey) -> Receive
        ensures { result ≡ receive key.now self.now }
    {
        Receive {
            sci: self.sci,
            epoch: key.epoch,
            an: key.an,
        }
    }

    /// Whether it goes: nobody has its SCI, and it has none of the held keys.
    pub fn goes(&self, scis: &[Sci], keys: &[ChannelKey]) -> bool
        ensures { result ≡ goes (record { scis = scis.now; keys = keys.now }) self.now }
    {
        !has(scis, &self.sci) && self.lacks_all(keys)
    }

    /// Whether it stays.
    pub fn stays(&self, scis: &[Sci], keys: &[ChannelKey]) -> bool
        ensures { result ≡ stays (record { scis = scis.now; keys = keys.now }) self.now }
    {
        !self.goes(scis, keys)
    }

    /// It afterwards: where it is somebody's, all held keys came into it.
    pub fn renewed(&self, scis: &[Sci], keys: &[ChannelKey]) -> Channel
        ensures { result ≡ renewed (record { scis = scis.now; keys = keys.now }) self.now }
    {
        if has(scis, &self.sci) {
            Channel {
                sci: self.sci,
                newest: newest_of(self.newest, keys),
            }
        } else {
            *self
        }
    }
}

/// Whether an SCI is one of these.
pub fn has(scis: &[Sci], sci: &Sci) -> bool
    ensures { result ≡ has scis.now sci.now }
{
    scis.iter().any(|one| *one == *sci)
}

/// The epoch of the newest of the keys and of another one.
fn newest_of(epoch: u32, keys: &[ChannelKey]) -> u32
    ensures { result ≡ newest_of epoch keys.now }
{
    let mut newest = epoch;
    for key in keys {
        newest = newest.max(key.epoch);
    }
    newest
}
