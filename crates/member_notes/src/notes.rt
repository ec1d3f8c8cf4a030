//! What is kept of all right MKPDUs.

ghost use Rattle.std.specs.Prelude.{◌≡◌, List, [], ◌∷◌, IfOk, OnErr};
ghost use Rattle.std.specs.BTreeMap.{is_at};
ghost use Rattle.std.specs.Map.{lookup};
ghost use Rattle.member_notes.specs.declared.mkpdu.RightMkpdu.{RightMkpdu};
ghost use Rattle.member_notes.specs.Mkpdus.{novelty, novelty_in};
ghost use Rattle.member_notes.specs.Standing.{KeepsSome, StandsFor, member_cmp};
ghost use Rattle.member_notes.specs.inside.Putting.{IsPutAt};

use crate::kept::KeptMkpdus;
use crate::mkpdu::RightMkpdu;
use crate::novelty::MkpduNovelty;
use lan_base::Mi;
use std::alloc::{AllocError, Global};
use std::collections::BTreeMap;
use std::marker::Model;

/// The right MKPDUs of a capture, one after another. Contracts see the entries of the map.
#[derive(Drop)]
pub struct MemberNotes {
    alloc: Global,
    members: BTreeMap<(u32, Mi), KeptMkpdus>,
}

impl Model for MemberNotes {
    ghost use Rattle.member_notes.specs.Standing.{Members};

    ghost Value = { Members };

    ghost view = { λ n. n.members.entries };
}

impl MemberNotes {
    /// Of no MKPDU. No memory is taken.
    pub fn new(alloc: Global) -> MemberNotes
        ensures { StandsFor [] result }
    {
        MemberNotes {
            alloc,
            members: BTreeMap::new(alloc),
        }
    }

    /// A right MKPDU more, and what it is behind those before it. An error leaves all as it was.
    pub fn note(&mut self, mkpdu: &RightMkpdu) -> Result<MkpduNovelty, AllocError>
        ensures noted { (h : List RightMkpdu) → StandsFor h self.old
            → IfOk result (λ told. (told ≡ novelty_in h mkpdu.now) × StandsFor (mkpdu.now ∷ h) self.new) }
        ensures kept { OnErr result (self.new ≡ self.old) }
    {
        note_at(self.alloc, &mut self.members, mkpdu)
    }
}

/// A right MKPDU more is kept under its member. An error leaves all as it was.
fn note_at(
    alloc: Global,
    members: &mut BTreeMap<(u32, Mi), KeptMkpdus>,
    mkpdu: &RightMkpdu,
) -> Result<MkpduNovelty, AllocError>
    ensures noted { (ms : List RightMkpdu)
        → KeepsSome ms (lookup (is_at (member_cmp (mkpdu.now.group, mkpdu.now.mi))) members.old.entries)
        → IfOk result (λ told. (told ≡ novelty ms mkpdu.now) × IsPutAt (mkpdu.now.group, mkpdu.now.mi) (mkpdu.now ∷ ms) members.old.entries members.new.entries) }
    ensures kept { OnErr result (members.new.entries ≡ members.old.entries) }
{
    let at = (mkpdu.group, mkpdu.mi);
    if let Some(notes) = members.get_mut(&at) {
        return notes.note(alloc, mkpdu);
    }
    members.insert(at, KeptMkpdus::of(mkpdu))?;
    Ok(MkpduNovelty::New)
}
