//! The channels of a data path.

ghost use Rattle.std.specs.Prelude.{◌≡◌, IfOk, OnOk, OnErr};
ghost use Rattle.receive_channels.specs.Channels.{after, IsTold};
ghost use Rattle.receive_channels.specs.Histories.{standing};

use crate::changes::ChannelChanges;
use crate::channel::{Channel, ChannelKey};
use crate::next::{Next, next_of};
use crate::still::{StillStep, is_still, remembered};
use lan_base::Sci;
use std::alloc::{AllocError, Global};
use std::marker::Model;

/// The channels that are there, and the SCIs for which there was no place. Contracts see both as lists,
/// and `standing` of a history of steps says which they are.
#[derive(Drop)]
pub struct Channels {
    channels: Vec<Channel>,
    waiting: Vec<Sci>,
    still: Option<StillStep>,
}

impl Model for Channels {
    ghost use Rattle.receive_channels.specs.Channels.{ChannelSet};

    ghost Value = { ChannelSet };

    ghost view = { λ c. record { channels = c.channels.items; waiting = c.waiting.items } };

    ghost use Rattle.receive_channels.specs.inside.Still.{IsStillAt};

    ghost invariant = { λ c. IsStillAt c.still (record { channels = c.channels.items; waiting = c.waiting.items }) };
}

impl Channels {
    ghost use Rattle.std.specs.Prelude.{[]};

    /// No channel is there. No memory is taken.
    pub fn new(alloc: Global) -> Channels
        ensures { result ≡ standing [] }
    {
        Channels {
            channels: Vec::new(alloc),
            waiting: Vec::new(alloc),
            still: None,
        }
    }

    /// One step: these are the SCIs of the live and the potential members, ascending, each once, and the
    /// held keys that the data path may have, the oldest first. An error leaves all as it was. The same step
    /// again, after one that told nothing and changed nothing, costs a comparison, and takes no memory.
    pub fn step(
        &mut self,
        alloc: Global,
        scis: &[Sci],
        keys: &[ChannelKey],
    ) -> Result<ChannelChanges, AllocError>
        ensures told { IfOk result (IsTold (record { scis = scis.now; keys = keys.now }) self.old) }
        ensures after { OnOk result (self.new ≡ after (record { scis = scis.now; keys = keys.now }) self.old) }
        ensures kept { OnErr result (self.new ≡ self.old) }
    {
        if is_still(&self.still, scis, keys) {
            return Ok(ChannelChanges::none(alloc));
        }
        let next = next_of(alloc, &self.channels, &self.waiting, scis, keys)?;
        self.still = remembered(alloc, &next, &self.channels, &self.waiting, scis, keys)?;
        let Next {
            told,
            channels,
            waiting,
        } = next;
        self.channels = channels;
        self.waiting = waiting;
        Ok(told)
    }
}
