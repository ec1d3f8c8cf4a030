//! What stands under one association number.

ghost use Rattle.std.specs.Prelude.{◌≡◌, ◌+◌, ◌<◌, [], max, OnOk, OnErr, Some};
ghost use Rattle.rx_slots.specs.Slots.{Standing, number_in};
ghost use Rattle.rx_slots.specs.inside.Admitting.{number_after};

use gcm_core::GcmKey;
use lan_base::Sci;
use std::alloc::{AllocError, Global};
use std::collections::BTreeMap;
use std::marker::Model;

/// A prepared key, the next packet number of each sender that was accepted under it, and the
/// greatest of these.
#[derive(Drop)]
pub struct Slot {
    key: GcmKey,
    numbers: BTreeMap<Sci, u64>,
    greatest: u64,
}

impl Model for Slot {
    ghost use Rattle.rx_slots.specs.Slots.{Standing};

    ghost Value = { Standing };

    ghost view = { λ s. record {
      key = s.key;
      numbers = s.numbers.entries;
      greatest = s.greatest;
    } };
}

impl Slot {
    ghost use Rattle.lan_base.specs.declared.address.Sci.{Sci};

    /// A key under which nothing was accepted yet. No memory is taken.
    pub fn new(alloc: Global, key: GcmKey) -> Slot
        ensures { result ≡ record { key = key; numbers = []; greatest = 1 } }
    {
        Slot {
            key,
            numbers: BTreeMap::new(alloc),
            greatest: 1,
        }
    }

    /// The key of the association number.
    pub fn key(&self) -> &GcmKey
        ensures { result.now ≡ self.now.key }
    {
        &self.key
    }

    /// The next packet number of a sender, 1 where none of its was accepted.
    pub fn next(&self, sci: &Sci) -> u64
        ensures { result ≡ number_in self.now.numbers sci.now }
    {
        match self.numbers.get(sci) {
            Some(next) => *next,
            None => 1,
        }
    }

    /// The greatest next packet number of all senders, at least 1.
    pub fn greatest(&self) -> u64
        ensures { result ≡ self.now.greatest }
    {
        self.greatest
    }

    /// A packet number of a sender was accepted. An error leaves the slot as it was.
    pub fn take(&mut self, sci: Sci, pn: u32) -> Result<(), AllocError>
        ensures key { self.new.key ≡ self.old.key }
        ensures numbers { OnOk result ((s : Sci) → number_in self.new.numbers s
            ≡ number_after self.old.numbers sci pn s) }
        ensures greatest { OnOk result (self.new.greatest ≡ max self.old.greatest (pn + 1)) }
        ensures unchanged { OnErr result (self.new ≡ self.old) }
    {
        let next = u64::from(pn) + 1;
        let kept = self.next(&sci);
        self.numbers.insert(sci, next.max(kept))?;
        self.greatest = self.greatest.max(next);
        Ok(())
    }
}
