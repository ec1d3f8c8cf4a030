//! What is told of all members.

ghost use Rattle.std.specs.Prelude.{ℕ, ◌≡◌, ◌&&◌, List, [], ◌∷◌, map, IfOk, OnOk, OnErr};
ghost use Rattle.std.specs.BTreeMap.{is_at};
ghost use Rattle.std.specs.Map.{lookup};
ghost use Rattle.member_notes.specs.Facts.{AreMembersOf, new_mkpdu, novelty_behind, spoken};
ghost use Rattle.member_notes.specs.FactsKept.{HoldsFacts};
ghost use Rattle.member_notes.specs.Spoken.{Spoken};
ghost use Rattle.member_notes.specs.Standing.{member_cmp};
ghost use Rattle.member_notes.specs.inside.Hearing.{IsHeard, hears, lists_rival, rivals_kept, speaker_or};

use crate::claim::Claim;
use crate::facts::Member;
use crate::mkpdu::RightMkpdu;
use crate::novelty::MkpduNovelty;
use crate::speaker::Speaker;
use lan_base::Mi;
use mkpdu_codec::Announcement;
use std::alloc::{AllocError, Global};
use std::collections::BTreeMap;
use std::marker::Model;

/// What right MKPDUs of a capture say, one after another. Contracts see the entries of the map.
#[derive(Drop)]
pub struct MemberFacts {
    alloc: Global,
    speakers: BTreeMap<(u32, Mi), Speaker>,
}

impl Model for MemberFacts {
    ghost use Rattle.member_notes.specs.FactsKept.{Speakers};

    ghost Value = { Speakers };

    ghost view = { λ f. f.speakers.entries };
}

impl MemberFacts {
    /// Of no MKPDU. No memory is taken.
    pub fn new(alloc: Global) -> MemberFacts
        ensures { HoldsFacts [] result }
    {
        MemberFacts {
            alloc,
            speakers: BTreeMap::new(alloc),
        }
    }

    /// A right MKPDU more, with what it is behind those before it, when it came, and what it says. An
    /// error leaves all as it was.
    pub fn note(
        &mut self,
        mkpdu: &RightMkpdu,
        novelty: MkpduNovelty,
        nanos: u64,
        said: &Announcement,
    ) -> Result<(), AllocError>
        ensures noted { (h : List Spoken) → HoldsFacts h self.old
            → novelty ≡ novelty_behind h (spoken mkpdu.now nanos said.now)
            → OnOk result (HoldsFacts (spoken mkpdu.now nanos said.now ∷ h) self.new) }
        ensures kept { OnErr result (self.new ≡ self.old) }
    {
        let serves_too = serves_too(&self.speakers, mkpdu, novelty, nanos, said);
        let claim = Claim::of(self.alloc, nanos, said)?;
        hear_at(
            self.alloc,
            &mut self.speakers,
            mkpdu,
            said,
            novelty,
            serves_too,
            claim,
        )
    }

    /// What is told of each member, in ascending order.
    pub fn members(&self) -> Result<Vec<Member>, AllocError>
        ensures { (h : List Spoken) → HoldsFacts h self.now
            → IfOk result (λ ms. AreMembersOf h ms.items) }
    {
        let mut members = Vec::with_capacity(self.alloc, self.speakers.len())?;
        for (at, speaker) in &self.speakers {
            members.push(Member {
                group: at.0,
                mi: at.1,
                counts: speaker.counts(),
            })?;
        }
        Ok(members)
    }
}

/// Whether a new MKPDU serves, and lists one as live that serves too.
fn serves_too(
    speakers: &BTreeMap<(u32, Mi), Speaker>,
    mkpdu: &RightMkpdu,
    novelty: MkpduNovelty,
    nanos: u64,
    said: &Announcement,
) -> bool
    ensures { result ≡ (new_mkpdu novelty && (said.now.server && lists_rival speakers.now.entries (spoken mkpdu.now nanos said.now))) }
{
    novelty.is_new() && said.server && lists_rival(speakers, mkpdu, nanos, said)
}

/// Whether an MKPDU lists one as live that stands against what it says.
fn lists_rival(
    speakers: &BTreeMap<(u32, Mi), Speaker>,
    mkpdu: &RightMkpdu,
    nanos: u64,
    said: &Announcement,
) -> bool
    ensures { result ≡ lists_rival speakers.now.entries (spoken mkpdu.now nanos said.now) }
{
    let live = said.live.as_slice();
    live.iter()
        .any(|peer| is_rival(speakers, peer.mi, mkpdu, nanos, said))
}

/// Whether a member stands against what an MKPDU says that serves.
fn is_rival(
    speakers: &BTreeMap<(u32, Mi), Speaker>,
    mi: Mi,
    mkpdu: &RightMkpdu,
    nanos: u64,
    said: &Announcement,
) -> bool
    ensures { result ≡ rivals_kept (spoken mkpdu.now nanos said.now) (lookup (is_at (member_cmp (mkpdu.now.group, mi))) speakers.now.entries) }
{
    match speakers.get(&(mkpdu.group, mi)) {
        None => false,
        Some(speaker) => speaker.rivals(mkpdu, nanos, said),
    }
}

/// What an MKPDU says is kept under its member. An error leaves all as it was.
fn hear_at(
    alloc: Global,
    speakers: &mut BTreeMap<(u32, Mi), Speaker>,
    mkpdu: &RightMkpdu,
    said: &Announcement,
    novelty: MkpduNovelty,
    serves_too: bool,
    claim: Option<Claim>,
) -> Result<(), AllocError>
    ensures heard { (nanos : ℕ) → OnOk result (IsHeard (mkpdu.now.group, mkpdu.now.mi)
        (hears novelty serves_too claim (spoken mkpdu.now nanos said.now)
        (speaker_or said.now.sci (lookup (is_at (member_cmp (mkpdu.now.group, mkpdu.now.mi))) speakers.old.entries)))
        speakers.old.entries speakers.new.entries) }
    ensures kept { OnErr result (speakers.new.entries ≡ speakers.old.entries) }
{
    let at = (mkpdu.group, mkpdu.mi);
    if let Some(speaker) = speakers.get_mut(&at) {
        return speaker.hear(alloc, mkpdu, said, novelty, serves_too, claim);
    }
    let mut speaker = Speaker::new(said.sci);
    speaker.hear(alloc, mkpdu, said, novelty, serves_too, claim)?;
    speakers.insert(at, speaker)?;
    Ok(())
}
