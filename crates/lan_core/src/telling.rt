//! A station's reaction as facts.

ghost use Rattle.std.specs.Prelude.{◌≡◌, ◌++◌, ◌∷◌, map, IfOk, OnOk};
ghost use Rattle.lan_core.specs.Expected.{change_fact, reaction_facts};

use crate::fact::{Fact, Facts};
use mka_station::Reaction;
use sak_exchange::{Change, HeldKey};
use std::alloc::{AllocError, Global};

/// Appends what a reaction of the station of a place shows; the numbers of the frame that was heard
/// and of the one that was sent are given.
pub fn tell(
    facts: &mut Facts,
    station: u8,
    heard: u32,
    number: u32,
    reaction: Reaction,
) -> Result<(), AllocError>
    ensures { OnOk result (facts.new ≡ facts.old ++ reaction_facts station heard number reaction) }
{
    let Reaction {
        heard: verdict,
        server,
        changes,
        sent,
    } = reaction;
    if let Some(verdict) = verdict {
        facts.push(Fact::HeardMka {
            frame: heard,
            station,
            verdict,
        })?;
    }
    if let Some(mi) = server {
        facts.push(Fact::Server { station, mi })?;
    }
    tell_changes(facts, station, changes.as_slice())?;
    if let Some(octets) = sent {
        facts.push(Fact::Framed {
            number,
            station,
            sec: false,
            octets,
        })?;
    }
    Ok(())
}

/// One fact, and then what a reaction of the station of a place shows.
pub fn told(
    alloc: Global,
    first: Fact,
    station: u8,
    number: u32,
    reaction: Reaction,
) -> Result<Facts, AllocError>
    ensures { IfOk result (λ facts. facts ≡ first ∷ reaction_facts station 0 number reaction) }
{
    let mut facts = Facts::with_capacity(alloc, reaction.changes.as_slice().len() + 1)?;
    facts.push(first)?;
    tell(&mut facts, station, 0, number, reaction)?;
    Ok(facts)
}

/// Appends what changes of the keys show.
fn tell_changes(facts: &mut Facts, station: u8, changes: &[Change]) -> Result<(), AllocError>
    ensures { OnOk result (facts.new ≡ facts.old ++ map (change_fact station) changes.now) }
{
    for change in changes {
        facts.push(fact_of(station, change))?;
    }
    Ok(())
}

/// What one change of the keys shows.
fn fact_of(station: u8, change: &Change) -> Fact
    ensures { result ≡ change_fact station change.now }
{
    match *change {
        Change::Dropped(HeldKey { key, .. }) => Fact::Dropped {
            station,
            id: key.id,
            an: key.an,
        },
        Change::Retired(HeldKey { key, .. }) => Fact::Retired {
            station,
            id: key.id,
            an: key.an,
        },
        Change::Began { key, cause } => Fact::Began {
            station,
            id: key.key.id,
            an: key.key.an,
            epoch: key.key.epoch,
            cause,
        },
        Change::Installed(HeldKey { key, .. }) => Fact::Installed {
            station,
            id: key.id,
            an: key.an,
            epoch: key.epoch,
            sak: key.sak,
        },
        Change::Untaken { id, why } => Fact::Untaken { station, id, why },
    }
}
