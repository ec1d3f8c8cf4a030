//! What an event shows in two groups.

ghost use Rattle.std.specs.Prelude.{◌≡◌, ◌++◌, ◌∷◌, [], OnOk, OnErr};

use crate::event::GroupNumber;
use lan_core::{Fact, Facts};
use std::alloc::{AllocError, Global};
use std::marker::Model;

/// What an event of one group showed there.
#[derive(Drop)]
pub struct Told {
    pub group: GroupNumber,
    pub facts: Facts,
}

/// What an event of two groups showed, event by event of the groups, in their order. Contracts see
/// the list.
#[derive(Drop)]
pub struct TwinFacts {
    told: Vec<Told>,
}

impl Model for TwinFacts {
    ghost use Rattle.std.specs.Prelude.{List};
    ghost use Rattle.cak_roll.specs.declared.told.Told.{Told};

    ghost Value = { List Told };

    ghost view = { λ f. f.told.items };
}

impl TwinFacts {
    /// Nothing, which takes no memory.
    pub fn new(alloc: Global) -> Self
        ensures { result ≡ [] }
    {
        TwinFacts {
            told: Vec::new(alloc),
        }
    }

    /// What was shown.
    pub fn as_slice(&self) -> &[Told]
        ensures { result.now ≡ self.now }
    {
        self.told.as_slice()
    }

    /// Appends what an event of a group showed.
    pub fn push(&mut self, group: GroupNumber, facts: Facts) -> Result<(), AllocError>
        ensures { OnOk result (self.new ≡ self.old
            ++ record { group = group; facts = facts } ∷ []) }
    {
        self.told.push(Told { group, facts })?;
        Ok(())
    }
}
