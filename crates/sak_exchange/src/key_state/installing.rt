//! A key is installed, and its number is remembered.

ghost use Rattle.std.specs.Prelude.{◌≡◌, ◌+◌, ◌<◌, ◌^◌, option_map, IfOk, OnOk, OnErr};
ghost use Rattle.lan_base.specs.declared.address.Mi.{Mi};
ghost use Rattle.sak_exchange.specs.Standing.{number_in};
ghost use Rattle.sak_exchange.specs.inside.States.{transmitting_now, apart_held, drops_latest, drops_former, install_changes_now, number_after, IsInstalled};

use super::KeyState;
use crate::change::{Change, Changes};
use crate::held_key::{HeldKey, Key};
use crate::latest::Latest;
use lan_base::{AssociationNumber, KeyId, Mi};
use std::alloc::AllocError;
use std::collections::BTreeMap;
use std::rc::Rc;

impl KeyState {
    /// A key is installed, with its roster where this life made it, and what changes is told.
    pub(super) fn install(
        &mut self,
        key: Key,
        roster: Option<Rc<Vec<Mi>>>,
    ) -> Result<Changes, AllocError>
        requires few { self.old.epochs + 1 < 2 ^ 32 }
        ensures changes { IfOk result (λ c. c ≡ install_changes_now self.old key) }
        ensures installed { OnOk result
            (IsInstalled self.old key (option_map (λ v. v.value.items) roster) self.new) }
        ensures unchanged { OnErr result (self.new ≡ self.old) }
    {
        let changes = self.install_changes(&key)?;
        self.note_number(&key.id)?;
        self.former = self.beside(key.an);
        self.latest = Some(Latest {
            held: HeldKey { key, begun: false },
            since_begun: 0,
        });
        self.last_an = Some(key.an);
        self.epochs += 1;
        if roster.is_some() {
            self.made += 1;
            self.since_made = Some(0);
        }
        self.roster = roster;
        Ok(changes)
    }

    /// What an install changes.
    fn install_changes(&self, key: &Key) -> Result<Changes, AllocError>
        ensures { IfOk result (λ c. c ≡ install_changes_now self.now key.now) }
    {
        let mut changes = Changes::new(self.alloc);
        if let Some(latest) = self.drops_latest(key.an) {
            changes.push(Change::Dropped(latest))?;
        }
        if let Some(former) = self.drops_former(key.an) {
            changes.push(Change::Dropped(former))?;
        }
        changes.push(Change::Installed(HeldKey {
            key: *key,
            begun: false,
        }))?;
        Ok(changes)
    }

    /// The latest key, where an install under this association number ends it.
    fn drops_latest(&self, an: AssociationNumber) -> Option<HeldKey>
        ensures { result ≡ drops_latest an self.now.latest }
    {
        match &self.latest {
            Some(latest) if an == latest.held.key.an || !latest.held.begun => Some(latest.held),
            _ => None,
        }
    }

    /// The old key, where an install under this association number ends it.
    fn drops_former(&self, an: AssociationNumber) -> Option<HeldKey>
        ensures { result ≡ drops_former an self.now.former }
    {
        match &self.former {
            Some(former) if an == former.key.an => Some(*former),
            _ => None,
        }
    }

    /// The key that an install under this association number leaves.
    fn beside(&self, an: AssociationNumber) -> Option<HeldKey>
        ensures { result ≡ apart_held an (transmitting_now self.now) }
    {
        match self.current() {
            Some(held) if held.key.an != an => Some(held),
            _ => None,
        }
    }

    /// The greatest key number of the server is remembered.
    fn note_number(&mut self, id: &KeyId) -> Result<(), AllocError>
        ensures numbers { OnOk result
            ((q : Mi) → number_in self.new.numbers q ≡ number_after self.old.numbers id.now q) }
        ensures others { record self.new { numbers = self.old.numbers } ≡ self.old }
        ensures unchanged { OnErr result (self.new ≡ self.old) }
    {
        let kept = self.number_of(&id.server).unwrap_or(0);
        let mut numbers = self.copied_numbers()?;
        numbers.insert(id.server, id.number.max(kept))?;
        self.numbers = Some(Rc::new(self.alloc, numbers)?);
        Ok(())
    }

    /// A copy of the key numbers that no other state has.
    fn copied_numbers(&self) -> Result<BTreeMap<Mi, u32>, AllocError>
        ensures { IfOk result (λ copy. copy.entries ≡ self.now.numbers) }
    {
        match &self.numbers {
            Some(numbers) => numbers.as_ref().clone(),
            None => Ok(BTreeMap::new(self.alloc)),
        }
    }

    /// The greatest number of the keys of a key server that were installed, if there is one.
    pub(super) fn number_of(&self, server: &Mi) -> Option<u32>
        ensures { result ≡ number_in self.now.numbers server.now }
    {
        let Some(numbers) = &self.numbers else {
            return None;
        };
        match numbers.get(server) {
            Some(number) => Some(*number),
            None => None,
        }
    }
}
