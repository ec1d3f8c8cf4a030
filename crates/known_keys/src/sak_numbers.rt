//! The numbers of SAKs.

ghost use Rattle.std.specs.Prelude.{◌≡◌, [], OnOk, OnErr, Some, if◌then◌else◌};
ghost use Rattle.aes_block.specs.declared.secret.Secret.{Secret};
ghost use Rattle.aes_block.specs.Secrets.{same_secret};
ghost use Rattle.known_keys.specs.Maps.{number_by};

use aes_block::Secret;
use std::alloc::{AllocError, Global};
use std::collections::BTreeMap;
use std::marker::Model;

/// By the octets of a SAK of either length, its number. Contracts see the entries of the maps.
#[derive(Drop)]
pub struct SakNumbers {
    narrow: BTreeMap<[u8; 16], u32>,
    wide: BTreeMap<[u8; 32], u32>,
}

impl Model for SakNumbers {
    ghost use Rattle.known_keys.specs.Maps.{Numbers};

    ghost Value = { Numbers };

    ghost view = { λ s. record { narrow = s.narrow.entries; wide = s.wide.entries } };
}

impl SakNumbers {
    /// No SAK. No memory is taken.
    pub fn new(alloc: Global) -> SakNumbers
        ensures { result ≡ record { narrow = []; wide = [] } }
    {
        SakNumbers {
            narrow: BTreeMap::new(alloc),
            wide: BTreeMap::new(alloc),
        }
    }

    /// The number of a SAK.
    pub fn number(&self, sak: &Secret) -> Option<u32>
        ensures { result ≡ number_by self.now sak.now }
    {
        match sak {
            Secret::S128(octets) => self.narrow.get(octets).copied(),
            Secret::S256(octets) => self.wide.get(octets).copied(),
        }
    }

    /// A SAK has this number. An error leaves all as it was.
    pub fn put(&mut self, sak: &Secret, number: u32) -> Result<(), AllocError>
        ensures put { OnOk result ((s : Secret) → number_by self.new s
            ≡ (if same_secret sak.now s then Some number else number_by self.old s)) }
        ensures kept { OnErr result (self.new ≡ self.old) }
    {
        match sak {
            Secret::S128(octets) => {
                self.narrow.insert(*octets, number)?;
            }
            Secret::S256(octets) => {
                self.wide.insert(*octets, number)?;
            }
        }
        Ok(())
    }
}
