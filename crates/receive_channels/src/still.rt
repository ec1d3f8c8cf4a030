//! A step that told nothing and changed nothing is remembered by what it was given, so that the same again
//! costs little.

ghost use Rattle.std.specs.Prelude.{◌≡◌, IsTrue, IfOk, IsSomeAnd};
ghost use Rattle.receive_channels.specs.Channels.{after, IsTold};
ghost use Rattle.receive_channels.specs.inside.Still.{IsStillAt};

use crate::channel::{Channel, ChannelKey};
use crate::next::{Next, same_scis};
use lan_base::Sci;
use std::alloc::{AllocError, Global};

/// What a step was given that told nothing and changed nothing.
#[derive(Drop)]
pub struct StillStep {
    pub scis: Vec<Sci>,
    pub keys: Vec<ChannelKey>,
}

impl StillStep {
    /// Whether a step is given the same.
    fn is_given(&self, scis: &[Sci], keys: &[ChannelKey]) -> bool
        ensures scis { IsTrue result → scis.now ≡ self.now.scis.items }
        ensures keys { IsTrue result → keys.now ≡ self.now.keys.items }
    {
        same_scis(scis, &self.scis) && same_keys(keys, &self.keys)
    }
}

/// Whether keys are the same.
fn same_keys(keys: &[ChannelKey], others: &[ChannelKey]) -> bool
    ensures { IsTrue result → keys.now ≡ others.now }
{
    keys == others
}

/// Whether a step is given what is remembered.
pub fn is_still(still: &Option<StillStep>, scis: &[Sci], keys: &[ChannelKey]) -> bool
    ensures { IsTrue result → IsSomeAnd still.now (λ s. (scis.now ≡ s.scis.items) × (keys.now ≡ s.keys.items)) }
{
    match still {
        Some(step) => step.is_given(scis, keys),
        None => false,
    }
}

/// What is remembered of a step that was given this, and that came to this.
pub fn remembered(
    alloc: Global,
    next: &Next,
    channels: &[Channel],
    waiting: &[Sci],
    scis: &[Sci],
    keys: &[ChannelKey],
) -> Result<Option<StillStep>, AllocError>
    requires told { IsTold (record { scis = scis.now; keys = keys.now })
        (record { channels = channels.now; waiting = waiting.now }) next.now.told }
    requires after { record { channels = next.now.channels.items; waiting = next.now.waiting.items }
        ≡ after (record { scis = scis.now; keys = keys.now })
        (record { channels = channels.now; waiting = waiting.now }) }
    ensures { IfOk result (λ still. IsStillAt still
        (record { channels = next.now.channels.items; waiting = next.now.waiting.items })) }
{
    if next.is_nothing(channels, waiting) {
        let still = copied(alloc, scis, keys)?;
        Ok(Some(still))
    } else {
        Ok(None)
    }
}

/// What a step is given, to be kept.
fn copied(alloc: Global, scis: &[Sci], keys: &[ChannelKey]) -> Result<StillStep, AllocError>
    ensures scis { IfOk result (λ still. still.scis.items ≡ scis.now) }
    ensures keys { IfOk result (λ still. still.keys.items ≡ keys.now) }
{
    let scis = scis.iter().copied().collect(alloc)?;
    let keys = keys.iter().copied().collect(alloc)?;
    Ok(StillStep { scis, keys })
}
