//! What is told of the packets of a capture.

ghost use Rattle.std.specs.Prelude.{◌≡◌, List, [], ◌∷◌, ◌++◌, map, IfOk, OnOk};
ghost use Rattle.use_notes.specs.changes.Changes.{AreChangesOf};
ghost use Rattle.member_notes.specs.Facts.{AreMembersOf, novelty_behind, spoken};
ghost use Rattle.member_notes.specs.Spoken.{Spoken};
ghost use Rattle.rollover_notes.specs.Counted.{AreUnreadyOf};
ghost use Rattle.rollover_notes.specs.Events.{Event, Used};
ghost use Rattle.rollover_notes.specs.Reported.{AreReportsOf};
ghost use Rattle.use_notes.specs.declared.frame.RightFrame.{RightFrame};
ghost use Rattle.use_notes.specs.Frames.{AreInOrder};
ghost use Rattle.audit_report.specs.Uses.{timed};
ghost use Rattle.audit_facts.specs.Noted.{IsNext, IsToldBehind, Noted, events, fresh_frames, given_in, noted_of, said_by, spoke_in, spoken_by, spoken_of};
ghost use Rattle.audit_facts.specs.Standing.{Holds, ToldStandFor};

use audit_report::{Finding, Handed, TimedUse, timed_uses};
use member_notes::{Member, MemberFacts, MkpduNovelty, RightMkpdu};
use mkpdu_codec::Announcement;
use packet_verdicts::{Kind, Mka};
use rollover_notes::{Report, RolloverNotes, Unready};
use std::alloc::{AllocError, Global};
use std::marker::Model;
use use_notes::changes::{Change, ChangeNotes};
use use_notes::{RightFrame, Use};

/// What the packets of a capture tell, one after another: from which key each sender came to which, what
/// is told of each member, and who was ready for a key. A value that answered that memory ran out is not
/// to be used again: no clause speaks of it. Contracts see what is kept of the three.
#[derive(Drop)]
pub struct ToldFacts {
    alloc: Global,
    changes: ChangeNotes,
    members: MemberFacts,
    rollover: RolloverNotes,
}

impl Model for ToldFacts {
    ghost use Rattle.audit_facts.specs.Standing.{Told};

    ghost Value = { Told };

    ghost view = { λ f. record { changes = f.changes; members = f.members; rollover = f.rollover } };
}

impl ToldFacts {
    /// Of no packet. No memory is taken.
    pub fn new(alloc: Global) -> ToldFacts
        ensures { ToldStandFor [] result }
    {
        ToldFacts {
            alloc,
            changes: ChangeNotes::new(alloc),
            members: MemberFacts::new(alloc),
            rollover: RolloverNotes::new(alloc),
        }
    }

    /// A packet more, of this kind and time: what it is behind the ones before it. Costs what the three
    /// cost of a fresh right frame or of a right MKPDU, and nothing of others.
    pub fn note(&mut self, finding: &Finding, nanos: u64, kind: &Kind) -> Result<(), AllocError>
        ensures { (h : List Noted) → ToldStandFor h self.old → IsNext h (noted_of finding.now nanos kind.now)
            → OnOk result (ToldStandFor (noted_of finding.now nanos kind.now ∷ h) self.new) }
    {
        match finding {
            Finding::RightFrame { frame, novelty } if novelty.is_fresh() => self.see(frame),
            Finding::RightMkpdu {
                mkpdu,
                novelty,
                handed,
            } => {
                self.give(mkpdu.group, handed)?;
                self.hear(mkpdu, *novelty, nanos, kind)
            }
            _ => Ok(()),
        }
    }

    /// A fresh right frame is seen.
    fn see(&mut self, frame: &RightFrame) -> Result<(), AllocError>
        ensures { (fs : List RightFrame) (ss : List Spoken) (es : List Event)
            → Holds fs ss es self.old → AreInOrder (frame.now ∷ fs)
            → OnOk result (Holds (frame.now ∷ fs) ss (Used frame.now ∷ es) self.new) }
    {
        self.changes.note(frame)?;
        self.rollover.see(frame)
    }

    /// A key is handed over in a group.
    fn give(&mut self, group: u32, handed: &Option<Handed>) -> Result<(), AllocError>
        ensures { (fs : List RightFrame) (ss : List Spoken) (es : List Event)
            → Holds fs ss es self.old
            → OnOk result (Holds fs ss (given_in group handed.now ++ es) self.new) }
    {
        match handed {
            Some(Handed::Key { id, told, .. }) => self.rollover.give(group, *id, told.key),
            _ => Ok(()),
        }
    }

    /// A right MKPDU is heard, with what its packet says.
    fn hear(
        &mut self,
        mkpdu: &RightMkpdu,
        novelty: MkpduNovelty,
        nanos: u64,
        kind: &Kind,
    ) -> Result<(), AllocError>
        ensures { (fs : List RightFrame) (ss : List Spoken) (es : List Event)
            → Holds fs ss es self.old
            → IsToldBehind ss mkpdu.now novelty nanos (said_by kind.now)
            → OnOk result (Holds fs (spoken_by mkpdu.now nanos (said_by kind.now) ++ ss)
            (spoke_in mkpdu.now novelty nanos (said_by kind.now) ++ es) self.new) }
    {
        match kind {
            Kind::Mka(Mka::Right { spelled, .. }) => {
                self.speak(mkpdu, novelty, nanos, &spelled.announcement)
            }
            _ => Ok(()),
        }
    }

    /// A right MKPDU speaks.
    fn speak(
        &mut self,
        mkpdu: &RightMkpdu,
        novelty: MkpduNovelty,
        nanos: u64,
        said: &Announcement,
    ) -> Result<(), AllocError>
        ensures { (fs : List RightFrame) (ss : List Spoken) (es : List Event)
            → Holds fs ss es self.old
            → novelty ≡ novelty_behind ss (spoken mkpdu.now nanos said.now)
            → OnOk result (Holds fs (spoken mkpdu.now nanos said.now ∷ ss)
            (spoke_in mkpdu.now novelty nanos (Some said.now) ++ es) self.new) }
    {
        self.members.note(mkpdu, novelty, nanos, said)?;
        if !novelty.is_new() {
            return Ok(());
        }
        self.rollover.speak(mkpdu, nanos, said)
    }

    /// The changes of each sender, by sender in ascending order and then in turn.
    pub fn changes(&self) -> Result<Vec<Change>, AllocError>
        ensures { (h : List Noted) → ToldStandFor h self.now
            → IfOk result (λ cs. AreChangesOf (fresh_frames h) cs.items) }
    {
        self.changes.changes()
    }

    /// What is told of each key and member to which fresh frames came early or joining, by key, group
    /// and MI.
    pub fn unready(&self) -> Result<Vec<Unready>, AllocError>
        ensures { (h : List Noted) → ToldStandFor h self.now
            → IfOk result (λ us. AreUnreadyOf (events h) us.items) }
    {
        self.rollover.unready()
    }

    /// What is told of each member and key that it reported, by group, MI and key.
    pub fn reported(&self) -> Result<Vec<Report>, AllocError>
        ensures { (h : List Noted) → ToldStandFor h self.now
            → IfOk result (λ rs. AreReportsOf (events h) rs.items) }
    {
        self.rollover.reported()
    }

    /// What is told of each member, in ascending order.
    pub fn members(&self) -> Result<Vec<Member>, AllocError>
        ensures { (h : List Noted) → ToldStandFor h self.now
            → IfOk result (λ ms. AreMembersOf (spoken_of h) ms.items) }
    {
        self.members.members()
    }

    /// What is told of each key and sender, with how many of its fresh frames came late.
    pub fn timed(&self, uses: &[Use]) -> Result<Vec<TimedUse>, AllocError>
        ensures { (h : List Noted) → ToldStandFor h self.now
            → IfOk result (λ us. us.items ≡ map (timed (events h)) uses.now) }
    {
        timed_uses(self.alloc, uses, &self.rollover)
    }
}
