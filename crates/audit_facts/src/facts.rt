//! What is kept of the packets of a capture.

ghost use Rattle.std.specs.Prelude.{◌≡◌, List, [], ◌∷◌, map, IfOk, OnOk, option_copied};
ghost use Rattle.use_notes.specs.changes.Changes.{AreChangesOf};
ghost use Rattle.mark_notes.specs.Marks.{first_giving, reuses_of};
ghost use Rattle.mark_notes.specs.Standing.{KeepsReuses};
ghost use Rattle.member_notes.specs.Facts.{AreMembersOf};
ghost use Rattle.rollover_notes.specs.Counted.{AreUnreadyOf};
ghost use Rattle.rollover_notes.specs.Reported.{AreReportsOf};
ghost use Rattle.audit_report.specs.Unknown.{unknown_of};
ghost use Rattle.audit_report.specs.Uses.{timed};
ghost use Rattle.audit_facts.specs.Noted.{IsNext, Noted, events, fresh_frames, givings, noted_of, reuses, spoken_of, unknown_names};
ghost use Rattle.audit_facts.specs.Standing.{StandsFor};

use crate::marks::mark;
use crate::names::name;
use crate::told_facts::ToldFacts;
use audit_report::{Finding, TimedUse, UnknownName, UnknownNames};
use lan_base::Sci;
use mark_notes::{Giving, MarkNotes, Reuse};
use member_notes::Member;
use packet_verdicts::Kind;
use rollover_notes::{Report, Unready};
use std::alloc::{AllocError, Global};
use std::marker::Model;
use tick_columns::Thinned;
use use_notes::Use;
use use_notes::changes::Change;

/// What the packets of a capture tell, one after another: from which key each sender came to which, what
/// is told of each member, and who was ready for a key; and what a picture marks: where each key was
/// given first, and which packets were reused; and which names no group has. A value that answered that memory ran out is not to be
/// used again: no clause speaks of it. Contracts see what is kept of both.
#[derive(Drop)]
pub struct AuditFacts {
    told: ToldFacts,
    marks: MarkNotes,
    unknown: UnknownNames,
}

impl Model for AuditFacts {
    ghost use Rattle.audit_facts.specs.Standing.{KeptFacts};

    ghost Value = { KeptFacts };

    ghost view = { λ f. record { told = f.told; marks = f.marks; unknown = f.unknown } };
}

impl AuditFacts {
    /// Of no packet. No memory is taken.
    pub fn new(alloc: Global) -> AuditFacts
        ensures { StandsFor [] result }
    {
        AuditFacts {
            told: ToldFacts::new(alloc),
            marks: MarkNotes::new(alloc),
            unknown: UnknownNames::new(alloc),
        }
    }

    /// A packet more, of this kind and time: what it is behind the ones before it. Costs what is told of
    /// a fresh right frame or of a right MKPDU, and nothing of others.
    pub fn note(&mut self, finding: &Finding, nanos: u64, kind: &Kind) -> Result<(), AllocError>
        ensures { (h : List Noted) → StandsFor h self.old → IsNext h (noted_of finding.now nanos kind.now)
            → OnOk result (StandsFor (noted_of finding.now nanos kind.now ∷ h) self.new) }
    {
        self.told.note(finding, nanos, kind)?;
        mark(&mut self.marks, finding)?;
        name(&mut self.unknown, kind)
    }

    /// The changes of each sender, by sender in ascending order and then in turn.
    pub fn changes(&self) -> Result<Vec<Change>, AllocError>
        ensures { (h : List Noted) → StandsFor h self.now
            → IfOk result (λ cs. AreChangesOf (fresh_frames h) cs.items) }
    {
        self.told.changes()
    }

    /// What is told of each key and member to which fresh frames came early or joining, by key, group
    /// and MI.
    pub fn unready(&self) -> Result<Vec<Unready>, AllocError>
        ensures { (h : List Noted) → StandsFor h self.now
            → IfOk result (λ us. AreUnreadyOf (events h) us.items) }
    {
        self.told.unready()
    }

    /// What is told of each member, in ascending order.
    pub fn members(&self) -> Result<Vec<Member>, AllocError>
        ensures { (h : List Noted) → StandsFor h self.now
            → IfOk result (λ ms. AreMembersOf (spoken_of h) ms.items) }
    {
        self.told.members()
    }

    /// What is told of each key and sender, with how many of its fresh frames came late.
    pub fn timed(&self, uses: &[Use]) -> Result<Vec<TimedUse>, AllocError>
        ensures { (h : List Noted) → StandsFor h self.now
            → IfOk result (λ us. us.items ≡ map (timed (events h)) uses.now) }
    {
        self.told.timed(uses)
    }

    /// What is told of the names that no group has, in ascending order.
    pub fn unknown(&self) -> Result<Vec<UnknownName>, AllocError>
        ensures { (h : List Noted) → StandsFor h self.now
            → IfOk result (λ us. us.items ≡ unknown_of (unknown_names h)) }
    {
        self.unknown.told()
    }

    /// What is told of each member and key that it reported, by group, MI and key.
    pub fn reported(&self) -> Result<Vec<Report>, AllocError>
        ensures { (h : List Noted) → StandsFor h self.now
            → IfOk result (λ rs. AreReportsOf (events h) rs.items) }
    {
        self.told.reported()
    }

    /// The first packet that gave the key of this number, if one did.
    pub fn giving(&self, key: u32) -> Option<Giving>
        ensures { (h : List Noted) → StandsFor h self.now → result ≡ first_giving (givings h) key }
    {
        self.marks.giving(key)
    }

    /// The reused packets of a sender, in few columns of packets, if there are some.
    pub fn reused(&self, sci: Sci) -> Option<&Thinned<Reuse>>
        ensures { (h : List Noted) → StandsFor h self.now
            → KeepsReuses (reuses_of sci (reuses h)) (option_copied result) }
    {
        self.marks.reused(sci)
    }
}
