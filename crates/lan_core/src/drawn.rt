//! The values that were drawn, each with the number of its draw.

ghost use Rattle.std.specs.Prelude.{◌≡◌, ◌<◌, ◌+◌, ◌^◌, [], length, OnOk};
ghost use Rattle.lan_core.specs.Standing.{number_of_mi, number_of_sak};
ghost use Rattle.lan_core.specs.Noting.{MiIsNoted, SakIsNoted};
ghost use Rattle.lan_core.specs.inside.Drawing.{SakIsKept};

use aes_block::Secret;
use lan_base::Mi;
use std::alloc::{AllocError, Global};
use std::collections::BTreeMap;
use std::marker::Model;

/// What a draw is for: one octet.
#[derive(Clone, Copy)]
enum Purpose {
    Identifier,
    Key,
}

const _: () = prove!(size_of::<Purpose>() == 1);

/// The draws, and the member identifiers and keys that they gave.
#[derive(Drop)]
pub struct Drawn {
    /// The draws, oldest first. A list has fewer than 2^63 members, so one more draw has a number.
    draws: Vec<Purpose>,
    mis: BTreeMap<Mi, u64>,
    narrow: BTreeMap<[u8; 16], u64>,
    wide: BTreeMap<[u8; 32], u64>,
}

impl Model for Drawn {
    ghost use Rattle.std.specs.Prelude.{length};
    ghost use Rattle.lan_core.specs.Standing.{Numbers};

    ghost Value = { Numbers };

    ghost view = { λ d. record {
      count = length d.draws.items;
      mis = d.mis.entries;
      narrow = d.narrow.entries;
      wide = d.wide.entries;
    } };
}

impl Drawn {
    /// Nothing was drawn. No memory is taken.
    pub fn new(alloc: Global) -> Drawn
        ensures { result ≡ record { count = 0; mis = []; narrow = []; wide = [] } }
    {
        Drawn {
            draws: Vec::new(alloc),
            mis: BTreeMap::new(alloc),
            narrow: BTreeMap::new(alloc),
            wide: BTreeMap::new(alloc),
        }
    }

    /// How many draws there were.
    pub fn count(&self) -> u64
        ensures count { result ≡ self.now.count }
        ensures small { result < 2 ^ 63 }
    {
        self.draws.len() as u64
    }

    /// The number of the next draw.
    pub fn next_number(&self) -> u64
        ensures { result ≡ self.now.count + 1 }
    {
        self.count() + 1
    }

    /// The number of the draw that gave a member identifier.
    pub fn number_of_mi(&self, mi: &Mi) -> Option<u64>
        ensures { result ≡ number_of_mi self.now mi.now }
    {
        self.mis.get(mi).copied()
    }

    /// The number of the first draw of those that gave a key.
    pub fn number_of_sak(&self, sak: &Secret) -> Option<u64>
        ensures { result ≡ number_of_sak self.now sak.now }
    {
        match sak {
            Secret::S128(octets) => self.narrow.get(octets).copied(),
            Secret::S256(octets) => self.wide.get(octets).copied(),
        }
    }

    /// A draw gave a member identifier.
    pub fn note_mi(&mut self, mi: Mi) -> Result<(), AllocError>
        ensures { OnOk result (MiIsNoted self.old self.new mi) }
    {
        let number = self.next_number();
        self.mis.insert(mi, number)?;
        count_on(&mut self.draws, 1, Purpose::Identifier)?;
        Ok(())
    }

    /// So many draws gave a key.
    pub fn note_sak(&mut self, sak: &Secret, draws: u64) -> Result<(), AllocError>
        ensures { OnOk result (SakIsNoted draws self.old self.new sak.now) }
    {
        let first = self.next_number();
        self.keep_sak(sak, first)?;
        count_on(&mut self.draws, draws, Purpose::Key)
    }

    /// Keeps the number of the draw that gave a key.
    fn keep_sak(&mut self, sak: &Secret, number: u64) -> Result<(), AllocError>
        ensures { OnOk result (SakIsKept number self.old self.new sak.now) }
    {
        match sak {
            Secret::S128(octets) => {
                self.narrow.insert(*octets, number)?;
            }
            Secret::S256(octets) => {
                self.wide.insert(*octets, number)?;
            }
        }
        Ok(())
    }
}

/// So many draws more, for a purpose.
fn count_on(draws: &mut Vec<Purpose>, more: u64, purpose: Purpose) -> Result<(), AllocError>
    ensures { OnOk result (length draws.new.items ≡ length draws.old.items + more) }
{
    for _ in 0..more {
        draws.push(purpose)?;
    }
    Ok(())
}
