//! What came of the jobs of a worker.

ghost use Rattle.std.specs.Prelude.{◌≡◌, ◌↔◌, [], IsTrue, length};

use crate::entry::Entry;
use std::marker::Model;

/// An entry for each job that was done, in their order. Contracts see it as the list.
#[derive(Debug, Drop)]
pub struct Log {
    entries: Vec<Entry>,
}

impl Model for Log {
    ghost use Rattle.std.specs.Prelude.{List};
    ghost use Rattle.data_workers.specs.declared.entry.Entry.{Entry};

    ghost Value = { List Entry };

    ghost view = { λ l. l.entries.items };
}

impl Log {
    /// The entries of a vector, in its memory.
    pub(crate) fn of(entries: Vec<Entry>) -> Log
        ensures { result ≡ entries.items }
    {
        Log { entries }
    }

    /// How many entries there are.
    pub fn len(&self) -> usize
        ensures { result ≡ length self.now }
    {
        self.entries.len()
    }

    /// Whether there are none.
    pub fn is_empty(&self) -> bool
        ensures { IsTrue result ↔ (self.now ≡ []) }
    {
        self.entries.is_empty()
    }

    /// The entries.
    pub fn as_slice(&self) -> &[Entry]
        ensures { result.now ≡ self.now }
    {
        self.entries.as_slice()
    }

    /// The entries, in their memory.
    pub fn into_entries(self) -> Vec<Entry>
        ensures { result.items ≡ self }
    {
        let Log { entries } = self;
        entries
    }
}
