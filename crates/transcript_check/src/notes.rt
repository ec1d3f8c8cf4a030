//! What is kept of facts, so that pairs of them are judged as they come.

ghost use Rattle.lan_core.specs.declared.fact.Fact.TheVariants as shows;
ghost use Rattle.transcript_check.specs.Judged.{is_missed};
ghost use Rattle.std.specs.Prelude.{ℕ, cond, min, ◌≡◌, ◌+◌, ◌<◌, ◌↔◌, IfOk, OnOk, OnErr, true, is_ok, List, Some, None, [], ◌∷◌, ◌++◌};
ghost use Rattle.aes_block.specs.declared.secret.Secret.{Secret};
ghost use Rattle.lan_base.specs.declared.address.Mi.{Mi};
ghost use Rattle.lan_core.specs.declared.fact.Fact.{Fact};
ghost use Rattle.transcript_reader.specs.Forms.{station_of};
ghost use Rattle.transcript_check.specs.Standing.{Maps, sak_at, first_of, line_by, IsBound, StandsFor, IsVerdict};
ghost use Rattle.transcript_check.specs.inside.Steps.{KeyIsPut, UseIsKept, IsNamed, IsUsed, Installs, Claims, Takes, IsNoted};

use crate::epochs::Epochs;
use crate::fault::CheckError;
use crate::named::{First, Named};
use crate::uses::{Aside, Claim, Uses, keep_at};
use crate::verdict::Verdict;
use aes_block::Secret;
use lan_base::{KeyId, Mi};
use lan_core::Fact;
use rx_slots::Arrival;
use std::alloc::{AllocError, Global};
use std::collections::BTreeMap;
use std::marker::Model;

/// What facts say, one after another. A SAK is kept once for all that installs say of it, and once for
/// all claims under it. A claim takes some sixteen octets, or fifty if its packet number is out of
/// turn. Contracts see the entries of the maps.
#[derive(Drop)]
pub struct Notes {
    alloc: Global,
    count: u64,
    missed: u64,
    once: Option<(u64, u64)>,
    one_key: Option<(u64, u64)>,
    epochs: Epochs,
    keys: BTreeMap<(Mi, u32), First>,
    narrow: BTreeMap<(u8, [u8; 16]), Uses>,
    wide: BTreeMap<(u8, [u8; 32]), Uses>,
    aside: Aside,
}

impl Model for Notes {
    ghost use Rattle.transcript_check.specs.Standing.{Maps};

    ghost Value = { Maps };

    ghost view = { λ c. record {
      count = c.count;
      missed = c.missed;
      once = c.once;
      one_key = c.one_key;
      epochs = c.epochs;
      keys = c.keys.entries;
      narrow = c.narrow.entries;
      wide = c.wide.entries;
      aside = c.aside.entries;
    } };
}

impl Notes {
    /// No fact. No memory is taken.
    pub fn new(alloc: Global) -> Notes
        ensures { StandsFor [] result }
    {
        Notes {
            alloc,
            count: 0,
            missed: 0,
            once: None,
            one_key: None,
            epochs: Epochs::new(alloc),
            keys: BTreeMap::new(alloc),
            narrow: BTreeMap::new(alloc),
            wide: BTreeMap::new(alloc),
            aside: BTreeMap::new(alloc),
        }
    }

    /// A fact more. An error leaves the value as it was; a life meets none.
    pub fn note(&mut self, fact: &Fact) -> Result<(), CheckError>
        requires { self.old.count < 18446744073709551615 }
        ensures noted { (facts : List Fact) → StandsFor facts self.old
            → IsNoted facts fact.now self.old self.new result }
        ensures kept { OnErr result (self.new ≡ self.old) }
        ensures life { (s : ℕ) (mi : Mi) → fact.now ≡ shows.Life s mi → is_ok result ≡ true }
    {
        let number = self.count + 1;
        self.take(number, fact)?;
        self.count = number;
        Ok(())
    }

    /// How many facts there were.
    pub fn count(&self) -> u64
        ensures { result ≡ self.now.count }
    {
        self.count
    }

    /// The verdict on the facts so far.
    pub fn verdict(&self) -> Verdict
        ensures { (facts : List Fact) → StandsFor facts self.now → IsVerdict facts result }
    {
        Verdict {
            once: self.once,
            one_key: self.one_key,
            missed: self.missed,
        }
    }

    /// The first install of an identifier.
    fn first_of(&self, id: KeyId) -> Option<(u64, Named)>
        ensures { result ≡ first_of self.now id }
    {
        let first = self.keys.get(&(id.server, id.number))?;
        let sak = self.epochs.find(first.station, first.epoch)?;
        Some((first.number, Named { an: first.an, sak }))
    }

    /// The first install of an identifier is kept, whose SAK is found under its station and epoch.
    fn put_key(&mut self, first: First, id: KeyId) -> Result<(), AllocError>
        ensures put { (sak : Secret) → sak_at self.old first.station first.epoch ≡ Some sak
            → OnOk result (KeyIsPut first.number id (record { an = first.an; sak = sak }) self.old self.new) }
        ensures kept { OnErr result (self.new ≡ self.old) }
    {
        self.keys.insert((id.server, id.number), first)?;
        Ok(())
    }

    /// The number of the line that used the packet number of a claim; if none did, that of this claim is
    /// kept.
    fn keep_use(&mut self, claim: Claim, sak: &Secret) -> Result<Option<u64>, AllocError>
        ensures line { IsBound self.old → sak_at self.old claim.place claim.epoch ≡ Some sak.now
            → IfOk result (λ line. UseIsKept claim.number (station_of claim.place) claim.pn sak.now self.old self.new line) }
        ensures kept { OnErr result (self.new ≡ self.old) }
    {
        match sak {
            Secret::S128(octets) => {
                keep_at(
                    self.alloc,
                    &mut self.narrow,
                    &mut self.aside,
                    *octets,
                    claim,
                )
            }
            Secret::S256(octets) => {
                keep_at(self.alloc, &mut self.wide, &mut self.aside, *octets, claim)
            }
        }
    }

    /// An install, which was kept, says something of an identifier.
    fn name(
        &mut self,
        number: u64,
        station: u8,
        epoch: u32,
        id: KeyId,
        named: Named,
    ) -> Result<(), AllocError>
        ensures named { sak_at self.old station epoch ≡ Some named.sak
            → OnOk result (IsNamed number id named self.old self.new self.old.one_key (first_of self.old id)) }
        ensures kept { OnErr result (self.new ≡ self.old) }
    {
        if self.one_key.is_some() {
            return Ok(());
        }
        match self.first_of(id) {
            None => self.put_key(
                First {
                    number,
                    epoch,
                    station,
                    an: named.an,
                },
                id,
            ),
            Some((first, before)) => {
                if !before.is_same(&named) {
                    self.one_key = Some((first, number));
                }
                Ok(())
            }
        }
    }

    /// A claim uses a packet number.
    fn make_use(&mut self, claim: Claim, sak: &Secret) -> Result<(), AllocError>
        ensures used { IsBound self.old → sak_at self.old claim.place claim.epoch ≡ Some sak.now
            → OnOk result (IsUsed claim.number (station_of claim.place) claim.pn sak.now self.old self.new self.old.once
            (line_by self.old (station_of claim.place) claim.pn sak.now)) }
        ensures kept { OnErr result (self.new ≡ self.old) }
    {
        if self.once.is_some() {
            return Ok(());
        }
        if let Some(first) = self.keep_use(claim, sak)? {
            self.once = Some((first, claim.number));
        }
        Ok(())
    }

    /// An install is taken.
    fn install(
        &mut self,
        number: u64,
        station: u8,
        epoch: u32,
        id: KeyId,
        named: Named,
    ) -> Result<(), CheckError>
        ensures { Installs number station epoch id named self.old self.new (sak_at self.old station epoch) result }
    {
        self.epochs.install(station, epoch, named.sak)?;
        match self.name(number, station, epoch, id, named) {
            Ok(()) => Ok(()),
            Err(_) => {
                self.epochs.forget(station, epoch);
                Err(CheckError::Memory)
            }
        }
    }

    /// A claim is taken.
    fn claim(&mut self, claim: Claim) -> Result<(), CheckError>
        ensures { Claims claim.number (station_of claim.place) claim.pn self.old self.new
            (sak_at self.old claim.place claim.epoch) result }
    {
        let sak = self.epochs.sak(claim.place, claim.epoch)?;
        self.make_use(claim, &sak)?;
        Ok(())
    }

    /// So many frames more were missed, as far as they can be counted.
    fn pass(&mut self, frames: u64)
        ensures { self.new ≡ record self.old { missed = min (self.old.missed + frames) 18446744073709551615 } }
    {
        self.missed = self.missed.saturating_add(frames);
    }

    /// A fact is taken, but not counted.
    fn take(&mut self, number: u64, fact: &Fact) -> Result<(), CheckError>
        ensures { Takes number fact.now self.old self.new result }
    {
        match fact {
            Fact::Installed {
                station,
                id,
                an,
                epoch,
                sak,
            } => self.install(number, *station, *epoch, *id, Named { an: *an, sak: *sak }),
            Fact::Claimed {
                station,
                an: _,
                epoch,
                pn,
            } => self.claim(Claim {
                number,
                epoch: *epoch,
                pn: *pn,
                place: *station,
            }),
            Fact::Arrived { arrival, .. } => {
                self.pass(missed_by(arrival));
                Ok(())
            }
            _ => Ok(()),
        }
    }
}

/// How many frames an answer misses.
fn missed_by(arrival: &Arrival) -> u64
    ensures { (k s : ℕ) → result ≡ cond (is_missed (shows.Arrived k s arrival.now)) 1 0 }
{
    match arrival {
        Arrival::Missed { .. } => 1,
        _ => 0,
    }
}
