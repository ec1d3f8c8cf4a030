//! The frames of key agreement on the air, by their check values.

ghost use Rattle.std.specs.Prelude.{◌≡◌, ℕ, List, [], IfSome, OnOk, OnErr};
ghost use Rattle.lan_core.specs.inside.Repeats.{first_with, IsFound};

use std::alloc::{AllocError, Global};
use std::collections::BTreeMap;
use std::marker::Model;

/// The places of frames by their check values. Two frames hardly ever have the same one, so that
/// the others are few.
#[derive(Drop)]
pub struct Checks {
    /// The first frame with each check value.
    firsts: BTreeMap<[u8; 16], u32>,
    /// All others.
    others: Vec<u32>,
}

impl Model for Checks {
    ghost use Rattle.lan_core.specs.inside.Repeats.{Checks};

    ghost Value = { Checks };

    ghost view = { λ c. record { firsts = c.firsts.entries; others = c.others.items } };
}

impl Checks {
    /// No frames. No memory is taken.
    pub fn new(alloc: Global) -> Checks
        ensures { result ≡ record { firsts = []; others = [] } }
    {
        Checks {
            firsts: BTreeMap::new(alloc),
            others: Vec::new(alloc),
        }
    }

    /// The first frame with a check value.
    pub fn first(&self, check: &[u8; 16]) -> Option<u32>
        ensures { result ≡ first_with self.now check.now }
    {
        self.firsts.get(check).copied()
    }

    /// The frames that are not the first ones with their check values.
    pub fn others(&self) -> &[u32]
        ensures { result.now ≡ self.now.others }
    {
        &self.others
    }

    /// A frame is found by its check value, if it has one. An error changes nothing.
    pub fn add(&mut self, check: Option<[u8; 16]>, place: u32) -> Result<(), AllocError>
        ensures kept { OnOk result ((c : List ℕ) (p : ℕ) → IsFound self.old c p
            → IsFound self.new c p) }
        ensures found { OnOk result (IfSome check (λ c. IsFound self.new c place)) }
        ensures err { OnErr result (self.new ≡ self.old) }
    {
        let Some(check) = check else {
            return Ok(());
        };
        if self.firsts.contains_key(&check) {
            self.others.push(place)?;
        } else {
            self.firsts.insert(check, place)?;
        }
        Ok(())
    }
}
