//! What changes in the keys that are held.

use crate::held_key::HeldKey;
use lan_base::KeyId;
use std::alloc::{AllocError, Global};
use std::marker::Model;

/// Why a key begins.
#[derive(Clone, Copy, PartialEq, Eq)]
pub enum Cause {
    /// All live members report it as their latest key.
    All,
    /// Its maker has waited for the life time.
    Timeout,
    /// The elected server shows that it transmits under it.
    Flag,
}

/// Why an offered key is not taken: the first of these that holds.
#[derive(Clone, Copy, PartialEq, Eq)]
pub enum Why {
    /// The announcement doesn't list the station as live under a recent number.
    NotListed,
    /// Its announcer isn't the elected server.
    NotServer,
    /// This life installed a key of that server, and the number offered isn't greater than `kept`,
    /// the greatest of their key numbers.
    Seen { kept: u32 },
    /// The latest key has begun and an old one is held.
    Retiring,
    /// The key is for a cipher suite that the station hasn't.
    Suite,
    /// The confidentiality offset leaves octets of a frame unencrypted.
    Offset,
    /// What was given is no wrap of a key.
    Wrap,
}

/// One change.
#[derive(Clone, Copy)]
pub enum Change {
    /// A key is held no more: none is, or another was installed.
    Dropped(HeldKey),
    /// The old key is held no more, as the latest one began the retire time ago.
    Retired(HeldKey),
    /// The latest key begins to transmit.
    Began { key: HeldKey, cause: Cause },
    /// A key is the latest one from now on.
    Installed(HeldKey),
    /// An offered key is not taken.
    Untaken { id: KeyId, why: Why },
}

/// A list of changes, in their order. Contracts see it as the list.
#[derive(Drop)]
pub struct Changes {
    changes: Vec<Change>,
}

impl Model for Changes {
    ghost use Rattle.std.specs.Prelude.{List};
    ghost use Rattle.sak_exchange.specs.declared.change.Change.{Change};

    ghost Value = { List Change };

    ghost view = { λ c. c.changes.items };
}

impl Changes {
    ghost use Rattle.std.specs.Prelude.{◌≡◌, ◌↔◌, ◌++◌, ◌∷◌, [], length, IsTrue, IfOk, OnOk, OnErr};

    /// The empty list, which takes no memory.
    pub fn new(alloc: Global) -> Changes
        ensures { result ≡ [] }
    {
        Changes {
            changes: Vec::new(alloc),
        }
    }

    /// The list of one change.
    pub fn of(alloc: Global, change: Change) -> Result<Changes, AllocError>
        ensures { IfOk result (λ c. c ≡ change ∷ []) }
    {
        let mut changes = Changes::new(alloc);
        changes.push(change)?;
        Ok(changes)
    }

    /// How many changes there are.
    pub fn len(&self) -> usize
        ensures { result ≡ length self.now }
    {
        self.changes.len()
    }

    /// Whether nothing changes.
    pub fn is_empty(&self) -> bool
        ensures { IsTrue result ↔ (self.now ≡ []) }
    {
        self.changes.is_empty()
    }

    /// The changes.
    pub fn as_slice(&self) -> &[Change]
        ensures { result.now ≡ self.now }
    {
        self.changes.as_slice()
    }

    /// Appends a change. An `Err` leaves the list as it was.
    pub fn push(&mut self, change: Change) -> Result<(), AllocError>
        ensures ok { OnOk result (self.new ≡ self.old ++ change ∷ []) }
        ensures err { OnErr result (self.new ≡ self.old) }
    {
        self.changes.push(change)?;
        Ok(())
    }
}
