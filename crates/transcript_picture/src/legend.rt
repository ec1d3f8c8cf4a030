//! The identifiers of keys, and who made each.

use lan_base::{KeyId, Mi};
use sheets::ENTRIES_MAX;
use std::alloc::{AllocError, Global};
use std::collections::BTreeMap;

/// A life of a station: its place, and which of its lives, from 1.
#[derive(Clone, Copy)]
pub struct Maker {
    pub place: u8,
    pub life: u32,
}

/// An identifier, and the life that made its key, where that is known.
#[derive(Clone, Copy)]
pub struct Entry {
    pub id: KeyId,
    pub maker: Option<Maker>,
}

/// The first identifiers in the order of their first install, numbered from 1, and how often keys of
/// further ones were installed.
#[derive(Drop)]
pub struct Legend {
    numbers: BTreeMap<(Mi, u32), u32>,
    entries: Vec<Entry>,
    further: u64,
}

impl Legend {
    /// No identifier. No memory is taken.
    pub fn new(alloc: Global) -> Legend {
        Legend {
            numbers: BTreeMap::new(alloc),
            entries: Vec::new(alloc),
            further: 0,
        }
    }

    /// A key of this identifier is installed, which this life made.
    pub fn note(&mut self, id: KeyId, maker: Option<Maker>) -> Result<(), AllocError> {
        if self.number(id).is_some() {
            return Ok(());
        }
        if self.entries.len() as u64 >= ENTRIES_MAX {
            self.further = self.further.saturating_add(1);
            return Ok(());
        }
        self.entries.push(Entry { id, maker })?;
        let number = u32::try_from(self.entries.len()).unwrap_or(u32::MAX);
        self.numbers.insert((id.server, id.number), number)?;
        Ok(())
    }

    /// The first identifiers.
    pub fn entries(&self) -> &[Entry] {
        self.entries.as_slice()
    }

    /// How often keys of further ones were installed.
    pub fn further(&self) -> u64 {
        self.further
    }

    /// The number of an identifier, where it is one of the first.
    pub fn number(&self, id: KeyId) -> Option<u32> {
        self.numbers.get(&(id.server, id.number)).copied()
    }
}
