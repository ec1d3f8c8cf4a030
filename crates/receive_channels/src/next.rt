//! What one step comes to.

ghost use Rattle.std.specs.Prelude.{◌≡◌, ◌≤◌, ◌-◌, ◌++◌, ◌&&◌, [], IsTrue, IfOk, OnOk, map, filter, not, length, take, drop};
ghost use Rattle.receive_channels.specs.Channels.{after, associations, goes, has, has_channel, is_before, lacks, place_of, put_in, receive, renewed, stays, with_added, most_channels, IsTold};
ghost use Rattle.receive_channels.specs.declared.changes.Opened.TheVariants.{Add, Full};

use crate::changes::{ChannelChanges, Opened, Receive};
use crate::channel::{Channel, ChannelKey, has};
use lan_base::Sci;
use std::alloc::{AllocError, Global};

/// The most channels at once, by `law_most` that of the definitions.
pub const MOST: usize = 128;

/// What a step tells, and what is there afterwards.
#[derive(Drop)]
pub struct Next {
    pub told: ChannelChanges,
    pub channels: Vec<Channel>,
    pub waiting: Vec<Sci>,
}

impl Next {
    /// Whether nothing is told, and all is as it was.
    pub fn is_nothing(&self, channels: &[Channel], waiting: &[Sci]) -> bool
        ensures opened { IsTrue result → self.now.told.opened.items ≡ [] }
        ensures receives { IsTrue result → self.now.told.receives.items ≡ [] }
        ensures removed { IsTrue result → self.now.told.removed.items ≡ [] }
        ensures channels { IsTrue result → self.now.channels.items ≡ channels.now }
        ensures waiting { IsTrue result → self.now.waiting.items ≡ waiting.now }
    {
        self.told.is_none()
            && same_channels(&self.channels, channels)
            && same_scis(&self.waiting, waiting)
    }
}

/// Whether channels are the same, and the newest keys that came into them.
fn same_channels(channels: &[Channel], others: &[Channel]) -> bool
    ensures { IsTrue result → channels.now ≡ others.now }
{
    channels == others
}

/// Whether SCIs are the same.
pub fn same_scis(scis: &[Sci], others: &[Sci]) -> bool
    ensures { IsTrue result → scis.now ≡ others.now }
{
    scis == others
}

/// What a step comes to.
pub fn next_of(
    alloc: Global,
    channels: &[Channel],
    waiting: &[Sci],
    scis: &[Sci],
    keys: &[ChannelKey],
) -> Result<Next, AllocError>
    ensures told { IfOk result (λ next. IsTold (record { scis = scis.now; keys = keys.now })
        (record { channels = channels.now; waiting = waiting.now }) next.told) }
    ensures after { IfOk result (λ next. record { channels = next.channels.items; waiting = next.waiting.items }
        ≡ after (record { scis = scis.now; keys = keys.now })
        (record { channels = channels.now; waiting = waiting.now })) }
{
    let came = newcomers(alloc, channels, scis)?;
    let (added, unplaced) = parted(&came, channels.len());
    let present = with_added(alloc, channels, added)?;
    Ok(Next {
        told: ChannelChanges {
            opened: opened(alloc, added, unplaced, waiting)?,
            receives: receives(alloc, &present, scis, keys)?,
            removed: removed(alloc, &present, scis, keys)?,
        },
        channels: kept(alloc, &present, scis, keys)?,
        waiting: unplaced.iter().copied().collect(alloc)?,
    })
}

/// The newcomers for which there are places beside so many channels, and the others.
#[tactic(auto, using(std::proofs::lemmas::List::take_min, std::proofs::lemmas::List::drop_min))]
fn parted(newcomers: &[Sci], channels: usize) -> (&[Sci], &[Sci])
    ensures added { result.0.now ≡ take (most_channels - channels) newcomers.now }
    ensures unplaced { result.1.now ≡ drop (most_channels - channels) newcomers.now }
{
    let places = MOST.saturating_sub(channels);
    newcomers.split_at(places.min(newcomers.len()))
}

/// Whether an SCI has a channel.
fn has_channel(channels: &[Channel], sci: &Sci) -> bool
    ensures { result ≡ has_channel channels.now sci.now }
{
    channels.iter().any(|channel| channel.sci == *sci)
}

/// The SCIs that have no channel.
fn newcomers(alloc: Global, channels: &[Channel], scis: &[Sci]) -> Result<Vec<Sci>, AllocError>
    ensures { IfOk result (λ v. v.items ≡ filter (λ sci. not (has_channel channels.now sci)) scis.now) }
{
    scis.iter()
        .filter(|sci| !has_channel(channels, *sci))
        .copied()
        .collect(alloc)
}

/// What is told of those that get a channel, and of those for which there is none.
fn opened(
    alloc: Global,
    added: &[Sci],
    unplaced: &[Sci],
    waiting: &[Sci],
) -> Result<Vec<Opened>, AllocError>
    ensures { IfOk result (λ v. v.items ≡ map Add added.now
        ++ map Full (filter (λ sci. not (has waiting.now sci)) unplaced.now)) }
{
    let adds = added.iter().map(|sci| Opened::Add(*sci));
    let fulls = unplaced
        .iter()
        .filter(|sci| !has(waiting, *sci))
        .map(|sci| Opened::Full(*sci));
    adds.chain(fulls).collect(alloc)
}

/// A channel is made.
fn put_in(channels: &mut Vec<Channel>, new: Channel) -> Result<(), AllocError>
    ensures { OnOk result (channels.new.items ≡ put_in new channels.old.items) }
{
    let at = place_of(channels, &new.sci);
    channels.insert(at, new)?;
    Ok(())
}

/// Where a channel with this SCI belongs: before the first with a greater one.
fn place_of(channels: &[Channel], sci: &Sci) -> usize
    ensures place { result ≡ place_of sci.now channels.now }
    ensures within { result ≤ length channels.now }
{
    channels
        .iter()
        .position(|channel| is_before(sci, &channel.sci))
        .unwrap_or(channels.len())
}

/// Whether an SCI stands before another.
fn is_before(sci: &Sci, other: &Sci) -> bool
    ensures { result ≡ is_before sci.now other.now }
{
    sci.cmp(other).is_lt()
}

/// The channels with those that are made.
fn with_added(
    alloc: Global,
    channels: &[Channel],
    added: &[Sci],
) -> Result<Vec<Channel>, AllocError>
    ensures { IfOk result (λ v. v.items ≡ with_added added.now channels.now) }
{
    let mut present: Vec<Channel> = channels.iter().copied().collect(alloc)?;
    for sci in added {
        put_in(&mut present, Channel::empty(*sci))?;
    }
    Ok(present)
}

/// The associations that are made: each key comes into each channel that is somebody's and lacks it.
fn receives(
    alloc: Global,
    present: &[Channel],
    scis: &[Sci],
    keys: &[ChannelKey],
) -> Result<Vec<Receive>, AllocError>
    ensures { IfOk result (λ v. v.items
        ≡ associations (record { scis = scis.now; keys = keys.now }) present.now keys.now) }
{
    let mut made = Vec::new(alloc);
    for key in keys {
        let more = receives_key(alloc, present, scis, key)?;
        made.extend_from_slice(&more)?;
    }
    Ok(made)
}

/// The associations of one key that are made.
fn receives_key(
    alloc: Global,
    present: &[Channel],
    scis: &[Sci],
    key: &ChannelKey,
) -> Result<Vec<Receive>, AllocError>
    ensures { IfOk result (λ v. v.items ≡ map (receive key.now)
        (filter (λ channel. has scis.now channel.sci && lacks key.now channel) present.now)) }
{
    present
        .iter()
        .filter(|channel| channel.is_due(scis, key))
        .map(|channel| channel.receive(key))
        .collect(alloc)
}

/// The channels that go.
fn removed(
    alloc: Global,
    present: &[Channel],
    scis: &[Sci],
    keys: &[ChannelKey],
) -> Result<Vec<Sci>, AllocError>
    ensures { IfOk result (λ v. v.items ≡ map (λ channel. channel.sci)
        (filter (goes (record { scis = scis.now; keys = keys.now })) present.now)) }
{
    present
        .iter()
        .filter(|channel| channel.goes(scis, keys))
        .map(|channel| channel.sci)
        .collect(alloc)
}

/// The channels that stay, as they are afterwards.
fn kept(
    alloc: Global,
    present: &[Channel],
    scis: &[Sci],
    keys: &[ChannelKey],
) -> Result<Vec<Channel>, AllocError>
    ensures { IfOk result (λ v. v.items ≡ map (renewed (record { scis = scis.now; keys = keys.now }))
        (filter (stays (record { scis = scis.now; keys = keys.now })) present.now)) }
{
    present
        .iter()
        .filter(|channel| channel.stays(scis, keys))
        .map(|channel| channel.renewed(scis, keys))
        .collect(alloc)
}
