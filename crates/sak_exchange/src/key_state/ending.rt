//! A tick is counted, and keys end by it.

ghost use Rattle.std.specs.Prelude.{◌≡◌, ◌∷◌, [], List, ℕ, Bool, true, false, IsTrue, IfOk, OnOk, OnErr, IsOk};
ghost use Rattle.lan_base.specs.declared.address.Mi.{Mi};
ghost use Rattle.sak_exchange.specs.Histories.{Keying, ticked};
ghost use Rattle.sak_exchange.specs.Outcomes.{dropping, retiring};
ghost use Rattle.sak_exchange.specs.Stills.{IsStill};
ghost use Rattle.sak_exchange.specs.Standing.{StandsFor};
ghost use Rattle.sak_exchange.specs.inside.States.{ticked_now, retired_now, retires_now, after_retiring, stays_now, drops_now};

use super::KeyState;
use crate::change::{Change, Changes};
use crate::held_key::HeldKey;
use lan_base::RETIRE_TIME;
use std::alloc::AllocError;

impl KeyState {
    /// A tick is counted.
    pub fn tick(&mut self)
        ensures stands { (base : ℕ) (own : Mi) (h : List Keying) → StandsFor base own false self.old h →
            StandsFor base own true self.new h }
        ensures epochs { self.new.epochs ≡ self.old.epochs }
    {
        self.count();
    }

    /// One more tick.
    fn count(&mut self)
        ensures { self.new ≡ ticked_now self.old }
    {
        self.latest = match &self.latest {
            Some(latest) => Some(latest.aged()),
            None => None,
        };
        self.since_made = match self.since_made {
            Some(ticks) => Some(ticks.saturating_add(1)),
            None => None,
        };
    }

    /// A tick passes at which a key server is elected: one more is counted, and the old key goes
    /// where its time is over.
    pub(super) fn pass(&mut self)
        ensures { self.new ≡ after_retiring (ticked_now self.old) }
    {
        self.count();
        if self.retires() {
            self.former = None;
        }
    }

    /// Whether a tick at which a key server is elected, or none is, changes no key. It may answer no
    /// where it changes none.
    pub fn stays(&self, elected: bool) -> bool
        ensures { IsTrue result → (base : ℕ) (own : Mi) (h : List Keying)
            → StandsFor base own false self.now h → IsStill elected h }
    {
        self.stays_now(elected)
    }

    /// Whether it tells so: nothing is held, or the latest key has begun and retires none.
    fn stays_now(&self, elected: bool) -> bool
        ensures { result ≡ stays_now elected self.now }
    {
        match &self.latest {
            Some(latest) => elected && latest.held.begun && !latest.retires_next(),
            None => self.former.is_none(),
        }
    }

    /// A tick passes that changes no key: it is counted.
    pub fn pass_still(&mut self)
        ensures stands { (elected : Bool) (base : ℕ) (own : Mi) (h : List Keying)
            → StandsFor base own false self.old h → IsStill elected h →
            StandsFor base own false self.new (ticked elected ∷ h) }
        ensures epochs { self.new.epochs ≡ self.old.epochs }
    {
        self.count();
    }

    /// After a tick at which no key server is elected: every key is dropped.
    pub fn drop_all(&mut self) -> Result<Changes, AllocError>
        ensures changes { (base : ℕ) (own : Mi) (h : List Keying)
            → StandsFor base own true self.old h →
            IfOk result (λ c. c ≡ (dropping h).changes) }
        ensures stands { (base : ℕ) (own : Mi) (h : List Keying)
            → StandsFor base own true self.old h →
            OnOk result (StandsFor base own false self.new (dropping h).past) }
        ensures prompt { (base : ℕ) (own : Mi) (h : List Keying)
            → StandsFor base own true self.old h →
            (dropping h).changes ≡ [] → IsOk result }
        ensures epochs { self.new.epochs ≡ self.old.epochs }
        ensures unchanged { OnErr result (self.new ≡ self.old) }
    {
        let changes = self.drops()?;
        self.latest = None;
        self.former = None;
        Ok(changes)
    }

    /// What it is to drop all keys.
    fn drops(&self) -> Result<Changes, AllocError>
        ensures changes { IfOk result (λ c. c ≡ drops_now self.now) }
        ensures prompt { drops_now self.now ≡ [] → IsOk result }
    {
        let mut changes = Changes::new(self.alloc);
        if let Some(latest) = &self.latest {
            changes.push(Change::Dropped(latest.held))?;
        }
        if let Some(former) = &self.former {
            changes.push(Change::Dropped(*former))?;
        }
        Ok(changes)
    }

    /// After a tick at which a key server is elected: the old key is retired where the latest one
    /// began the retire time ago.
    pub fn retire(&mut self) -> Result<Changes, AllocError>
        ensures changes { (base : ℕ) (own : Mi) (h : List Keying)
            → StandsFor base own true self.old h →
            IfOk result (λ c. c ≡ (retiring h).changes) }
        ensures stands { (base : ℕ) (own : Mi) (h : List Keying)
            → StandsFor base own true self.old h →
            OnOk result (StandsFor base own false self.new (retiring h).past) }
        ensures prompt { (base : ℕ) (own : Mi) (h : List Keying)
            → StandsFor base own true self.old h →
            (retiring h).changes ≡ [] → IsOk result }
        ensures epochs { self.new.epochs ≡ self.old.epochs }
        ensures unchanged { OnErr result (self.new ≡ self.old) }
    {
        let Some(key) = self.retired() else {
            return Ok(Changes::new(self.alloc));
        };
        let changes = Changes::of(self.alloc, Change::Retired(key))?;
        self.former = None;
        Ok(changes)
    }

    /// The old key, if it is retired now.
    fn retired(&self) -> Option<HeldKey>
        ensures { result ≡ retired_now self.now }
    {
        if self.retires() { self.former } else { None }
    }

    /// Whether the latest key began the retire time ago.
    fn retires(&self) -> bool
        ensures { result ≡ retires_now self.now }
    {
        match &self.latest {
            Some(latest) => latest.held.begun && latest.since_begun == RETIRE_TIME,
            None => false,
        }
    }
}
