//! What is kept of givings and of reused packets.

ghost use Rattle.std.specs.Prelude.{◌≡◌, ◌≤◌, ◌∷◌, [], All, List, OnOk, option_copied};
ghost use Rattle.mark_notes.specs.declared.giving.Giving.{Giving};
ghost use Rattle.mark_notes.specs.declared.reuse.Reuse.{Reuse};
ghost use Rattle.mark_notes.specs.Marks.{first_giving, reuses_of};
ghost use Rattle.mark_notes.specs.Standing.{KeepsReuses, StandsFor};

use crate::giving::{Giving, give};
use crate::reuse::{Reuse, note_reuse};
use lan_base::Sci;
use std::alloc::{AllocError, Global};
use std::collections::BTreeMap;
use std::marker::Model;
use tick_columns::Thinned;

/// Which packet gave each key first, and which packets were reused, one after another. A value that
/// answered that memory ran out is not to be used again: no clause speaks of it. Contracts see the
/// entries of the maps.
#[derive(Drop)]
pub struct MarkNotes {
    alloc: Global,
    givings: BTreeMap<u32, Giving>,
    senders: BTreeMap<Sci, Thinned<Reuse>>,
}

impl Model for MarkNotes {
    ghost use Rattle.mark_notes.specs.Standing.{KeptMarks};

    ghost Value = { KeptMarks };

    ghost view = { λ n. record { givings = n.givings.entries; senders = n.senders.entries } };
}

impl MarkNotes {
    /// Of nothing. No memory is taken.
    pub fn new(alloc: Global) -> MarkNotes
        ensures { StandsFor [] [] result }
    {
        MarkNotes {
            alloc,
            givings: BTreeMap::new(alloc),
            senders: BTreeMap::new(alloc),
        }
    }

    /// A packet gives a key. Costs a look-up among the keys.
    pub fn give(&mut self, giving: &Giving) -> Result<(), AllocError>
        ensures { (gs : List Giving) (rs : List Reuse) → StandsFor gs rs self.old
            → OnOk result (StandsFor (giving.now ∷ gs) rs self.new) }
    {
        give(&mut self.givings, giving)
    }

    /// A packet is reused, behind all that were reused before. Costs a look-up among the senders, and
    /// now and then a walk over the columns of one.
    pub fn reuse(&mut self, packet: &Reuse) -> Result<(), AllocError>
        ensures { (gs : List Giving) (rs : List Reuse) → StandsFor gs rs self.old
            → All (λ r. r.packet ≤ packet.now.packet) rs
            → OnOk result (StandsFor gs (packet.now ∷ rs) self.new) }
    {
        note_reuse(self.alloc, &mut self.senders, packet)
    }

    /// The first giving of the key of this number, if a packet gave it.
    pub fn giving(&self, key: u32) -> Option<Giving>
        ensures { (gs : List Giving) (rs : List Reuse) → StandsFor gs rs self.now
            → result ≡ first_giving gs key }
    {
        self.givings.get(&key).copied()
    }

    /// The reused packets of a sender, in few columns of packets, if there are some.
    pub fn reused(&self, sci: Sci) -> Option<&Thinned<Reuse>>
        ensures { (gs : List Giving) (rs : List Reuse) → StandsFor gs rs self.now
            → KeepsReuses (reuses_of sci rs) (option_copied result) }
    {
        self.senders.get(&sci)
    }
}
