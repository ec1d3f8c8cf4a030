//! Which installs were told so far, and so which facts are refused.

ghost use Rattle.std.specs.Prelude.{◌≡◌, ◌++◌, ◌∷◌, ◌↔◌, [], List, Some, None, Ok, Err, OnOk, OnErr, is_ok, ok_or, true, ℕ};
ghost use Rattle.lan_base.specs.declared.address.Mi.{Mi};
ghost use Rattle.lan_core.specs.declared.fact.Fact.{Fact};
ghost use Rattle.lan_core.specs.declared.fact.Fact.TheVariants as shows;
ghost use Rattle.transcript_check.specs.declared.fault.CheckError.TheVariants.{Refused};
ghost use Rattle.transcript_check.specs.declared.fault.CheckFault.{CheckFault};
ghost use Rattle.transcript_check.specs.declared.fault.CheckFault.TheVariants.{Orphan};
ghost use Rattle.transcript_check.specs.Standing.{AreSaksOf, refusal, sak_under};
ghost use Rattle.transcript_check.specs.inside.Steps.{Enters, Opens, SakIsPut, without_sak};

use crate::fault::{CheckError, CheckFault};
use aes_block::Secret;
use lan_core::Fact;
use std::alloc::{AllocError, Global};
use std::collections::BTreeMap;
use std::marker::Model;

/// The SAK that each station installed under each epoch, which decides whether a fact is refused.
/// Those of either length have a map of their own. Contracts see the entries.
#[derive(Drop)]
pub struct Epochs {
    narrow: BTreeMap<(u8, u32), [u8; 16]>,
    wide: BTreeMap<(u8, u32), [u8; 32]>,
}

impl Model for Epochs {
    ghost use Rattle.transcript_check.specs.Standing.{Saks};

    ghost Value = { Saks };

    ghost view = { λ e. record { narrow = e.narrow.entries; wide = e.wide.entries } };
}

impl Epochs {
    /// No install. No memory is taken.
    pub fn new(alloc: Global) -> Epochs
        ensures { AreSaksOf [] result }
    {
        Epochs {
            narrow: BTreeMap::new(alloc),
            wide: BTreeMap::new(alloc),
        }
    }

    /// A fact more, unless it is refused. An error leaves the value as it was; a life meets none.
    pub fn take(&mut self, fact: &Fact) -> Result<(), CheckError>
        ensures taken { (facts : List Fact) → AreSaksOf facts self.old
            → OnOk result (AreSaksOf (facts ++ fact.now ∷ []) self.new) }
        ensures refused { (facts : List Fact) → AreSaksOf facts self.old → (why : CheckFault)
            → (result ≡ Err (Refused why)) ↔ (refusal facts fact.now ≡ Some why) }
        ensures kept { OnErr result (self.new ≡ self.old) }
        ensures life { (s : ℕ) (mi : Mi) → fact.now ≡ shows.Life s mi → is_ok result ≡ true }
    {
        self.enter(fact)
    }

    /// The SAK that a station installed under an epoch.
    pub(crate) fn sak(&self, station: u8, epoch: u32) -> Result<Secret, CheckFault>
        ensures { result ≡ ok_or (sak_under self.now station epoch) Orphan }
    {
        self.find(station, epoch).ok_or(CheckFault::Orphan)
    }

    /// The same, if there is one.
    pub(crate) fn find(&self, station: u8, epoch: u32) -> Option<Secret>
        ensures { result ≡ sak_under self.now station epoch }
    {
        if let Some(octets) = self.narrow.get(&(station, epoch)) {
            return Some(Secret::S128(*octets));
        }
        let octets = self.wide.get(&(station, epoch))?;
        Some(Secret::S256(*octets))
    }

    /// A station installs a SAK under an epoch.
    pub(crate) fn install(&mut self, station: u8, epoch: u32, sak: Secret) -> Result<(), CheckError>
        ensures { Opens station epoch sak self.old self.new (sak_under self.old station epoch) result }
    {
        if self.find(station, epoch).is_some() {
            return Err(CheckFault::Doubled.into());
        }
        match self.put(station, epoch, sak) {
            Ok(()) => Ok(()),
            Err(_) => Err(CheckError::Memory),
        }
    }

    /// The SAK of a station's epoch that has none is kept. An error leaves all as it was.
    fn put(&mut self, station: u8, epoch: u32, sak: Secret) -> Result<(), AllocError>
        ensures put { sak_under self.old station epoch ≡ None
            → OnOk result (SakIsPut station epoch sak self.old self.new) }
        ensures kept { OnErr result (self.new ≡ self.old) }
    {
        match sak {
            Secret::S128(octets) => {
                self.narrow.insert((station, epoch), octets)?;
                Ok(())
            }
            Secret::S256(octets) => {
                self.wide.insert((station, epoch), octets)?;
                Ok(())
            }
        }
    }

    /// The SAK of a station's epoch is kept no more.
    pub(crate) fn forget(&mut self, station: u8, epoch: u32)
        ensures { self.new ≡ without_sak self.old station epoch }
    {
        self.narrow.remove(&(station, epoch));
        self.wide.remove(&(station, epoch));
    }

    /// A fact is taken.
    fn enter(&mut self, fact: &Fact) -> Result<(), CheckError>
        ensures { Enters fact.now self.old self.new result }
    {
        match fact {
            Fact::Installed {
                station,
                epoch,
                sak,
                ..
            } => self.install(*station, *epoch, *sak),
            Fact::Claimed { station, epoch, .. } => {
                self.sak(*station, *epoch)?;
                Ok(())
            }
            _ => Ok(()),
        }
    }
}
