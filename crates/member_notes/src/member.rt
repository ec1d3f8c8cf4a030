//! What is kept of the MKPDUs of one member.

ghost use Rattle.std.specs.Prelude.{◌≡◌, List, ◌∷◌, IfOk, OnErr};
ghost use Rattle.member_notes.specs.declared.mkpdu.RightMkpdu.{RightMkpdu};
ghost use Rattle.member_notes.specs.Mkpdus.{novelty};
ghost use Rattle.member_notes.specs.Standing.{Keeps};
ghost use Rattle.member_notes.specs.inside.Fewness.{kept_of_one};

use crate::mkpdu::{First, RightMkpdu};
use crate::novelty::MkpduNovelty;
use std::alloc::{AllocError, Global};
use std::collections::BTreeMap;
use std::marker::Model;

/// By message number the first MKPDU with it, and the greatest message number. Contracts see the
/// entries.
#[derive(Drop)]
pub struct MkpduNotes {
    firsts: BTreeMap<u32, First>,
    greatest: u32,
}

impl Model for MkpduNotes {
    ghost use Rattle.member_notes.specs.Standing.{KeptOfMember};
    ghost use Rattle.std.specs.Prelude.{Some};

    ghost Value = { KeptOfMember };

    ghost view = { λ m. record { firsts = m.firsts.entries; greatest = Some m.greatest } };
}

impl MkpduNotes {
    /// Of one MKPDU with this message number, of which this is kept.
    pub fn of(alloc: Global, mn: u32, first: First) -> Result<MkpduNotes, AllocError>
        ensures { (ms : List RightMkpdu) → Keeps ms (kept_of_one mn first)
            → IfOk result (λ notes. Keeps ms notes) }
    {
        let mut firsts = BTreeMap::new(alloc);
        firsts.insert(mn, first)?;
        Ok(MkpduNotes {
            firsts,
            greatest: mn,
        })
    }

    /// An MKPDU more. An error leaves all as it was.
    pub fn note(&mut self, mkpdu: &RightMkpdu) -> Result<MkpduNovelty, AllocError>
        ensures noted { (ms : List RightMkpdu) → Keeps ms self.old
            → IfOk result (λ told. (told ≡ novelty ms mkpdu.now) × Keeps (mkpdu.now ∷ ms) self.new) }
        ensures kept { OnErr result (self.new ≡ self.old) }
    {
        let first = self.firsts.get(&mkpdu.mn).copied();
        if first.is_none() {
            self.firsts.insert(mkpdu.mn, First::of(mkpdu))?;
        }
        let above = self.greatest < mkpdu.mn;
        self.greatest = self.greatest.max(mkpdu.mn);
        Ok(MkpduNovelty::after(first, above, mkpdu))
    }
}
