//! What is kept of the MKPDUs of one member, in little room where it sent one alone.

ghost use Rattle.std.specs.Prelude.{◌≡◌, List, [], ◌∷◌, IfOk, OnErr};
ghost use Rattle.member_notes.specs.declared.mkpdu.RightMkpdu.{RightMkpdu};
ghost use Rattle.member_notes.specs.Mkpdus.{novelty};
ghost use Rattle.member_notes.specs.Standing.{Keeps};
ghost use Rattle.member_notes.specs.inside.Fewness.{kept_in, kept_of_one};

use crate::member::MkpduNotes;
use crate::mkpdu::{First, RightMkpdu};
use crate::novelty::MkpduNovelty;
use std::alloc::{AllocError, Global};
use std::marker::Model;

/// What is kept of the MKPDUs of one member. Contracts see the entries.
#[derive(Drop)]
pub struct KeptMkpdus {
    notes: Notes,
}

impl Model for KeptMkpdus {
    ghost use Rattle.member_notes.specs.Standing.{KeptOfMember};
    ghost use Rattle.member_notes.specs.inside.Fewness.{kept_in};

    ghost Value = { KeptOfMember };

    ghost view = { λ m. kept_in m.notes };
}

/// Of one MKPDU alone its message number and what is kept of it; else of all.
#[derive(Drop)]
enum Notes {
    One { mn: u32, first: First },
    More(Box<MkpduNotes>),
}

impl KeptMkpdus {
    /// Of one MKPDU. No memory is taken.
    pub fn of(mkpdu: &RightMkpdu) -> KeptMkpdus
        ensures { Keeps (mkpdu.now ∷ []) result }
    {
        KeptMkpdus {
            notes: Notes::One {
                mn: mkpdu.mn,
                first: First::of(mkpdu),
            },
        }
    }

    /// An MKPDU more. An error leaves all as it was.
    pub fn note(&mut self, alloc: Global, mkpdu: &RightMkpdu) -> Result<MkpduNovelty, AllocError>
        ensures noted { (ms : List RightMkpdu) → Keeps ms self.old
            → IfOk result (λ told. (told ≡ novelty ms mkpdu.now) × Keeps (mkpdu.now ∷ ms) self.new) }
        ensures kept { OnErr result (self.new ≡ self.old) }
    {
        self.notes.note(alloc, mkpdu)
    }
}

impl Notes {
    fn note(&mut self, alloc: Global, mkpdu: &RightMkpdu) -> Result<MkpduNovelty, AllocError>
        ensures noted { (ms : List RightMkpdu) → Keeps ms (kept_in self.old)
            → IfOk result (λ told. (told ≡ novelty ms mkpdu.now) × Keeps (mkpdu.now ∷ ms) (kept_in self.new)) }
        ensures kept { OnErr result (self.new ≡ self.old) }
    {
        match self {
            Notes::More(notes) => notes.note(mkpdu),
            Notes::One { mn, first } => {
                let (notes, novelty) = note_second(alloc, *mn, *first, mkpdu)?;
                *self = Notes::More(notes);
                Ok(novelty)
            }
        }
    }
}

/// An MKPDU more behind one.
fn note_second(
    alloc: Global,
    mn: u32,
    first: First,
    mkpdu: &RightMkpdu,
) -> Result<(Box<MkpduNotes>, MkpduNovelty), AllocError>
    ensures { (ms : List RightMkpdu) → Keeps ms (kept_of_one mn first)
        → IfOk result (λ it. (it.1 ≡ novelty ms mkpdu.now) × Keeps (mkpdu.now ∷ ms) it.0.value) }
{
    let mut notes = MkpduNotes::of(alloc, mn, first)?;
    let novelty = notes.note(mkpdu)?;
    Ok((Box::new(alloc, notes)?, novelty))
}
