//! What is kept of the packets so far, and what a further one is.

ghost use Rattle.std.specs.Prelude.{◌≡◌, ◌≢◌, ◌<◌, ◌≤◌, ◌+◌, ◌^◌, ◌++◌, ◌∷◌, [], ℕ, List, length, IfOk, OnOk, Ok, Err};
ghost use Rattle.audit_report.specs.Lines.{set_lines};
ghost use Rattle.capture_packets.specs.Packets.{Seen};
ghost use Rattle.key_ring.specs.Rings.{Ring};
ghost use Rattle.known_keys.specs.History.{Entry, keys};
ghost use Rattle.known_keys.specs.Standing.{StandsFor as KnownStandsFor};
ghost use Rattle.known_keys.specs.Undecided.{undecided};
ghost use Rattle.packet_verdicts.specs.declared.kind.Mka.TheVariants.{Right};
ghost use Rattle.packet_verdicts.specs.Kinds.{FitsMka};
ghost use Rattle.use_notes.specs.Frames.{IsBehind};
ghost use Rattle.capture_audit.specs.declared.end.AuditEnd.TheVariants as ends;
ghost use Rattle.capture_audit.specs.Before.{Unwrapped, number_behind, right_under};
ghost use Rattle.capture_audit.specs.Findings.{not_right};
ghost use Rattle.known_keys.specs.Numbered.{most_keys};
ghost use Rattle.capture_audit.specs.Telling.{IsVerdict, numbered_hand};
ghost use Rattle.capture_audit.specs.inside.Keeping.{EndsOf, Finds, Handles, IsFound, IsOfGroup, IsSound, IsWithin, Keeps, NotesFrame, NotesSec, OfHeld, SetsKeys, Settles};

use crate::end::AuditEnd;
use crate::handing::{hand, show};
use audit_facts::AuditFacts;
use audit_report::{Finding, Tally, Verdict, put_hand_line};
use capture_packets::PacketHead;
use gcm_frames::Tag;
use key_ring::{HandKey, KeyRing};
use known_keys::{KeyError, KnownKeys};
use member_notes::{MemberNotes, RightMkpdu};
use mkpdu_codec::Spelled;
use packet_verdicts::{Groups, Kind, Mka, Sec, given_key, shown_keys};
use std::alloc::{AllocError, Global};
use use_notes::{RightFrame, UseNotes};

/// What is kept of the packets so far.
#[derive(Drop)]
pub struct Auditor {
    pub groups: Groups,
    pub known: KnownKeys,
    pub uses: UseNotes,
    pub members: MemberNotes,
    pub facts: AuditFacts,
    pub tally: Tally,
}

impl Auditor {
    /// Of no packet, with the groups and keys of a key text, whose lines of keys are appended, with `keys`
    /// the keys themselves too. An `Err` may leave some of them.
    pub fn of(
        alloc: Global,
        ring: KeyRing,
        keys: bool,
        into: &mut Vec<u8>,
    ) -> Result<Auditor, AuditEnd>
        requires few { length ring.groups < 2 ^ 32 }
        ensures keeps { IfOk result (λ a. Keeps ring [] a) }
        ensures sound { IfOk result (λ a. IsSound a) }
        ensures none { IfOk result (λ a. a.tally.all ≡ 0) }
        ensures lines { OnOk result (into.new.items
            ≡ into.old.items ++ set_lines keys (numbered_hand ring)) }
        ensures ends { EndsOf ring result }
    {
        let mut known = KnownKeys::new(alloc);
        set_keys(&mut known, &ring.hand, keys, into)?;
        Ok(Auditor {
            groups: ring.groups,
            known,
            uses: UseNotes::new(alloc),
            members: MemberNotes::new(alloc),
            facts: AuditFacts::new(alloc),
            tally: Tally::none(),
        })
    }

    /// What is judged of the packets so far.
    pub fn verdict(&self) -> Result<Verdict, AllocError>
        ensures { (ring : Ring) (packets : List Unwrapped) → Keeps ring packets self.now
            → IfOk result (λ v. IsVerdict ring packets v) }
    {
        let uses = self.uses.uses()?;
        let timed = self.facts.timed(&uses)?;
        let changes = self.facts.changes()?;
        let unready = self.facts.unready()?;
        let members = self.facts.members()?;
        let unknown = self.facts.unknown()?;
        Ok(Verdict::of(
            self.uses.once(),
            self.known.one_key(),
            uses,
            timed,
            changes,
            unready,
            members,
            unknown,
        ))
    }

    /// What a packet of this kind is behind the ones before it, which is noted and counted with them. Of
    /// a protected frame the newest key that is known to it was found under which it is right. A key too
    /// many leaves all as it was; behind want of memory it is not to be used.
    pub fn settle(
        &mut self,
        head: &PacketHead,
        kind: &Kind,
        newest: Option<u32>,
    ) -> Result<Finding, AuditEnd>
        requires sound { IsSound self.old }
        requires room { self.old.tally.all + 1 < 2 ^ 32 }
        requires group { IsOfGroup self.old.groups kind.now }
        ensures settles { (ring : Ring) (before : List Unwrapped) (packet : Seen)
            → Keeps ring before self.old → IsFound ring before packet head.now kind.now newest
            → Settles ring before packet self.old self.new result }
        ensures ends { result ≢ Err ends.WriteFault }
        ensures sound { OnOk result (IsSound self.new) }
        ensures groups { OnOk result (self.new.groups ≡ self.old.groups) }
        ensures count { OnOk result (self.new.tally.all ≡ self.old.tally.all + 1) }
    {
        let finding = self.find(self.tally.all + 1, head, kind, newest)?;
        self.facts.note(&finding, head.nanos, kind)?;
        self.tally = self.tally.with(&finding, head.is_untimed);
        Ok(finding)
    }

    /// What a packet of this number and kind is.
    fn find(
        &mut self,
        packet: u32,
        head: &PacketHead,
        kind: &Kind,
        newest: Option<u32>,
    ) -> Result<Finding, AuditEnd>
        requires last { self.old.known.firsts.last < packet }
        requires few { length self.old.groups < 2 ^ 32 }
        requires group { IsOfGroup self.old.groups kind.now }
        ensures within { OnOk result (IsWithin packet self.old self.new) }
        ensures finds { (ring : Ring) (before : List Unwrapped) (seen : Seen)
            → packet ≡ number_behind before
            → Keeps ring before self.old → IsFound ring before seen head.now kind.now newest
            → Finds ring before seen self.old self.new result }
        ensures ends { result ≢ Err ends.WriteFault }
    {
        match kind {
            Kind::Foreign => Ok(Finding::Foreign),
            Kind::Other => Ok(Finding::Other),
            Kind::Sec(sec) => Ok(self.sec(packet, head, sec, newest)?),
            Kind::Mka(mka) => self.mka(packet, head.nanos, mka),
        }
    }

    /// What a frame with the EtherType of MACsec is.
    fn sec(
        &mut self,
        packet: u32,
        head: &PacketHead,
        sec: &Sec,
        newest: Option<u32>,
    ) -> Result<Finding, AllocError>
        requires { self.old.known.firsts.last < packet }
        ensures within { OnOk result (IsWithin packet self.old self.new) }
        ensures notes { OfHeld self.old (λ groups told rights spelled. IsBehind packet rights
            → IfOk result (NotesSec groups told rights spelled packet head.now.nanos newest sec.now self.new)) }
    {
        match sec {
            Sec::Cut => Ok(Finding::SecCut),
            Sec::Malformed(why) => Ok(Finding::Malformed(*why)),
            Sec::Protected { tag, check } => match newest {
                Some(key) => self.right_frame(packet, key, head, tag, *check),
                None => Ok(self.not_right(head, tag)),
            },
        }
    }

    /// What a frame is that is right under a key.
    fn right_frame(
        &mut self,
        packet: u32,
        key: u32,
        head: &PacketHead,
        tag: &Tag,
        check: [u8; 16],
    ) -> Result<Finding, AllocError>
        requires { self.old.known.firsts.last < packet }
        ensures within { OnOk result (IsWithin packet self.old self.new) }
        ensures notes { OfHeld self.old (λ groups told rights spelled. IsBehind packet rights
            → IfOk result (NotesFrame groups told rights spelled
            (right_under packet head.now.nanos tag.now check key) self.new)) }
    {
        let frame = RightFrame {
            packet,
            key,
            sci: tag.sci,
            pn: tag.pn,
            check,
            time: head.nanos,
            confidential: tag.conf,
        };
        let novelty = self.uses.note(&frame)?;
        Ok(Finding::RightFrame { frame, novelty })
    }

    /// What a frame is that is right under no key.
    fn not_right(&self, head: &PacketHead, tag: &Tag) -> Finding
        ensures { (told : List Entry) → KnownStandsFor told self.now.known
            → result ≡ not_right (undecided told tag.now.sci tag.now.an head.now.nanos) }
    {
        match self.known.undecided(tag.sci, tag.an, head.nanos) {
            Some(why) => Finding::Undecided(why),
            None => Finding::WrongFrame,
        }
    }

    /// What a frame of key agreement is.
    fn mka(&mut self, packet: u32, nanos: u64, mka: &Mka) -> Result<Finding, AuditEnd>
        requires last { self.old.known.firsts.last < packet }
        requires few { length self.old.groups < 2 ^ 32 }
        requires group { FitsMka self.old.groups mka.now }
        ensures within { OnOk result (IsWithin packet self.old self.new) }
        ensures handles { OfHeld self.old (λ groups told rights spelled. length (keys told) ≤ most_keys
            → Handles groups told rights spelled packet nanos mka.now self.old self.new result) }
        ensures ends { result ≢ Err ends.WriteFault }
    {
        match mka {
            Mka::Cut => Ok(Finding::MkaCut),
            Mka::Dropped(refusal) => Ok(Finding::Dropped(*refusal)),
            Mka::Unknown { sci, gives, .. } => {
                self.known.strange(*sci)?;
                Ok(Finding::Unknown { gives: *gives })
            }
            Mka::Wrong { gives } => Ok(Finding::WrongMkpdu { gives: *gives }),
            Mka::Right { group, spelled } => self.right_mkpdu(packet, nanos, *group, spelled),
        }
    }

    /// What an MKPDU is that is right under a group.
    fn right_mkpdu(
        &mut self,
        packet: u32,
        nanos: u64,
        group: usize,
        spelled: &Spelled,
    ) -> Result<Finding, AuditEnd>
        requires last { self.old.known.firsts.last < packet }
        requires few { length self.old.groups < 2 ^ 32 }
        requires group { FitsMka self.old.groups (Right group spelled.now) }
        ensures within { OnOk result (IsWithin packet self.old self.new) }
        ensures handles { OfHeld self.old (λ groups told rights before. length (keys told) ≤ most_keys
            → Handles groups told rights before packet nanos (Right group spelled.now) self.old self.new result) }
        ensures ends { result ≢ Err ends.WriteFault }
    {
        let announcement = &spelled.announcement;
        let gift = given_key(&self.groups, group, announcement);
        let shown = shown_keys(announcement);
        let group = group as u32;
        let handed = hand(&mut self.known, packet, nanos, group, gift)?;
        show(&mut self.known, nanos, group, shown.latest)?;
        show(&mut self.known, nanos, group, shown.old)?;
        let mkpdu = RightMkpdu {
            packet,
            group,
            mi: announcement.mi,
            mn: announcement.mn,
            check: spelled.check,
        };
        let novelty = self.members.note(&mkpdu)?;
        Ok(Finding::RightMkpdu {
            mkpdu,
            novelty,
            handed,
        })
    }
}

/// Sets keys by hand one after the other, and appends their lines.
fn set_keys(
    known: &mut KnownKeys,
    hand: &[HandKey],
    keys: bool,
    into: &mut Vec<u8>,
) -> Result<(), AuditEnd>
    ensures sets { KnownStandsFor [] known.old
        → SetsKeys hand.now keys known.new into.old.items into.new.items result }
    ensures last { OnOk result (known.new.firsts.last ≡ known.old.firsts.last) }
{
    for key in hand {
        let number = known.set(key.sender, key.an, key.sak)?;
        put_hand_line(number, key, keys, into)?;
    }
    Ok(())
}

impl From<KeyError> for AuditEnd {
    ghost use Rattle.capture_audit.specs.inside.Keeping.{end_of_key};

    ghost from_gives = { λ why end. end ≡ end_of_key why };

    fn from(why: KeyError) -> Self {
        match why {
            KeyError::TooManyKeys => AuditEnd::KeyLimit,
            KeyError::Memory => AuditEnd::Memory,
        }
    }
}
