//! Packets whose protected frames are tried together.

ghost use Rattle.std.specs.Prelude.{◌≡◌, ◌≢◌, ◌<◌, ◌≤◌, ◌+◌, ◌^◌, ◌++◌, ◌∷◌, [], ℕ, All, Bool, true, false, List, length, map, drop, Err, IfOk, OnOk, OnErr};
ghost use Rattle.audit_report.specs.Packets.{begun_part, begun_words};
ghost use Rattle.capture_packets.specs.Packets.{Seen, seen};
ghost use Rattle.key_ring.specs.Rings.{Ring};
ghost use Rattle.known_keys.specs.History.{Entry};
ghost use Rattle.known_keys.specs.Standing.{StandsFor as KnownStandsFor};
ghost use Rattle.packet_verdicts.specs.Frames.{frame_of};
ghost use Rattle.packet_verdicts.specs.Groups.{GroupKeys};
ghost use Rattle.packet_verdicts.specs.Kinds.{Fits, packet_kind};
ghost use Rattle.packet_verdicts.specs.Trials.{IsTrial, newest};
ghost use Rattle.capture_audit.specs.declared.end.AuditEnd.TheVariants as ends;
ghost use Rattle.capture_audit.specs.Before.{Unwrapped, entries, number_behind};
ghost use Rattle.capture_audit.specs.Ends.{RisesAt};
ghost use Rattle.capture_audit.specs.Telling.{told_lines};
ghost use Rattle.capture_audit.specs.inside.Batches.{AreWaiting, IsJudged, IsLonger, IsReady, IsTriedAt, SettlesAlone, SettlesUp, StandsAt, Takes, Tells, TellsAll, Writes, answers, distributes, found_at, has_other_type};
ghost use Rattle.capture_audit.specs.inside.Keeping.{IsFound, IsOfGroup, IsSound, Keeps};

use crate::asks::Asks;
use crate::auditor::Auditor;
use crate::end::AuditEnd;
use audit_report::{begin_line, put_finding};
use capture_packets::{Packet, PacketHead};
use lan_base::{Sink, Unwritten, write_all};
use packet_verdicts::{Judged, Kind, Mka, Sec, Trial, judge, law_kind_fits, run_trials};
use std::alloc::{AllocError, Global};
use std::thread::Threads;

/// At most so many packets are in a batch.
const MOST_PACKETS: usize = 1024;

/// So many octets of protected frames make a batch full.
const MOST_OCTETS: usize = 1_048_576;

/// Where the EtherType of a frame begins.
const ETHER_TYPE: usize = 12;

/// A packet that waits for its turn: the front of its line, where lines of packets are asked for, and
/// where its frame is tried, if it is a protected one.
#[derive(Drop)]
pub struct Waiting {
    pub head: PacketHead,
    pub kind: Kind,
    pub line: Vec<u8>,
    pub trial: Option<usize>,
}

/// Packets behind those that were settled, none of which makes a key known, and of each that is a
/// protected frame what is tried.
#[derive(Drop)]
pub struct Batch {
    pub alloc: Global,
    pub asks: Asks,
    pub waiting: Vec<Waiting>,
    pub trials: Vec<Trial>,
    /// How many octets the packets of the trials have.
    pub octets: usize,
    /// The lines that are written next.
    pub text: Vec<u8>,
}

impl Batch {
    /// No packet, behind lines that are to be written, where this is asked for.
    pub fn new(alloc: Global, asks: Asks, text: Vec<u8>) -> Batch
        ensures stands { (ring : Ring) (a : Auditor) → Keeps ring [] a
            → text.items ≡ told_lines asks ring [] → StandsAt asks ring [] [] [] a result }
        ensures ready { (groups : List GroupKeys) → IsReady groups result }
        ensures none { result.waiting.items ≡ [] }
    {
        Batch {
            alloc,
            asks,
            waiting: Vec::new(alloc),
            trials: Vec::new(alloc),
            octets: 0,
            text,
        }
    }

    /// Takes a packet more. One that may make a key known is settled alone, behind all before it and
    /// before any other is taken, so that each frame is tried under the keys known to it. One that passes is
    /// settled at once, and not judged.
    pub fn take<T: Threads + Sync, K: Sink>(
        &mut self,
        rt: &T,
        auditor: &mut Auditor,
        mut packet: Packet,
        sink: &mut K,
    ) -> Result<(), AuditEnd>
        requires sound { IsSound auditor.old }
        requires ready { IsReady auditor.old.groups self.old }
        requires room { auditor.old.tally.all + (length self.old.waiting.items + 1) < 2 ^ 32 }
        ensures takes { (asks : Asks) (ring : Ring) (before : List Unwrapped) (waiting : List Seen)
            (written : List ℕ) → StandsAt asks ring before waiting written auditor.old self.old
            → Takes asks ring before waiting (seen packet) written (K.held sink.old) (K.held sink.new)
            auditor.new self.new result }
        ensures sound { OnOk result (IsSound auditor.new) }
        ensures groups { OnOk result (auditor.new.groups ≡ auditor.old.groups) }
        ensures ready { OnOk result (IsReady auditor.new.groups self.new) }
        ensures count { OnOk result (auditor.new.tally.all + length self.new.waiting.items
            ≡ auditor.old.tally.all + (length self.old.waiting.items + 1)) }
        ensures write_fault { RisesAt (Err ends.WriteFault) (K.faults sink.old) (K.faults sink.new) result }
    {
        if self.passes(&packet) {
            auditor.settle(&packet.head, &Kind::Other, None)?;
            return Ok(());
        }
        law_kind_fits();
        let Judged { kind, start } = judge(self.alloc, &auditor.groups, &mut packet)?;
        if distributes(&kind) {
            self.settle(rt, auditor, sink)?;
            return self.settle_alone(auditor, kind, start, packet, sink);
        }
        self.put(auditor, kind, start, packet)?;
        if self.is_full() {
            self.settle(rt, auditor, sink)?;
        }
        Ok(())
    }

    /// Whether a packet passes: none waits before it, packets have no lines of their own, and its EtherType
    /// shows that it is neither a protected frame nor one of key agreement.
    fn passes(&self, packet: &Packet) -> bool
        ensures shows { result ≡ true → self.now.asks.shows ≡ false }
        ensures none { result ≡ true → self.now.waiting.items ≡ [] }
        ensures ethernet { result ≡ true → packet.now.head.is_ethernet ≡ true }
        ensures other { result ≡ true → has_other_type packet.now.octets.items ≡ true }
    {
        !self.asks.shows
            && self.waiting.is_empty()
            && packet.head.is_ethernet
            && has_other_type(&packet.octets)
    }

    /// Whether those that wait are settled before more are taken.
    fn is_full(&self) -> bool {
        self.waiting.len() >= MOST_PACKETS || self.octets >= MOST_OCTETS
    }

    /// Puts a packet of this kind, whose frame begins at this octet, behind those that wait.
    fn put(
        &mut self,
        auditor: &Auditor,
        kind: Kind,
        start: usize,
        packet: Packet,
    ) -> Result<(), AllocError>
        requires start { start ≤ length packet.octets.items }
        requires fits { Fits auditor.now.groups (drop start packet.octets.items) kind }
        requires room { auditor.now.tally.all + (length self.old.waiting.items + 1) < 2 ^ 32 }
        ensures puts { (asks : Asks) (ring : Ring) (before : List Unwrapped) (waiting : List Seen)
            (written : List ℕ) (one : Seen) → StandsAt asks ring before waiting written auditor.now self.old
            → IsJudged ring one packet.head kind (drop start packet.octets.items)
            → distributes kind ≡ false
            → OnOk result (StandsAt asks ring before (waiting ++ one ∷ []) written auditor.now self.new) }
        ensures ready { IsReady auditor.now.groups self.old
            → OnOk result (IsReady auditor.now.groups self.new) }
        ensures count { OnOk result
            (length self.new.waiting.items ≡ length self.old.waiting.items + 1) }
    {
        let number = auditor.tally.all + self.waiting.len() as u32 + 1;
        let line = self.begin(number, &packet.octets[start..], &kind)?;
        let head = packet.head;
        let trial = self.try_later(auditor, &kind, start, packet.octets)?;
        self.waiting.push(Waiting {
            head,
            kind,
            line,
            trial,
        })?;
        Ok(())
    }

    /// The front of a packet's line, where lines of packets are shown.
    fn begin(&self, number: u32, frame: &[u8], kind: &Kind) -> Result<Vec<u8>, AllocError>
        ensures { IfOk result (λ line. line.items
            ≡ begun_part self.now.asks.shows number (begun_words frame.now kind.now)) }
    {
        let mut line = Vec::new(self.alloc);
        if self.asks.shows {
            begin_line(number, frame, kind, &mut line)?;
        }
        Ok(line)
    }

    /// Puts the frame of a packet of this kind behind those that are tried, if it is a protected one, and
    /// answers where.
    fn try_later(
        &mut self,
        auditor: &Auditor,
        kind: &Kind,
        start: usize,
        octets: Vec<u8>,
    ) -> Result<Option<usize>, AllocError>
        requires start { start ≤ length octets.items }
        requires fits { Fits auditor.now.groups (drop start octets.items) kind.now }
        ensures tries { (told : List Entry) (one : Seen) → KnownStandsFor told auditor.now.known
            → drop start octets.items ≡ frame_of one.octets
            → IfOk result (λ place. IsTriedAt told (answers told self.new.trials.items) one place kind.now) }
        ensures more { OnOk result (IsLonger self.old.trials.items self.new.trials.items) }
        ensures ready { All IsTrial self.old.trials.items
            → OnOk result (All IsTrial self.new.trials.items) }
        ensures waiting { self.new.waiting.items ≡ self.old.waiting.items }
        ensures text { self.new.text.items ≡ self.old.text.items }
        ensures asks { self.new.asks ≡ self.old.asks }
    {
        let Kind::Sec(Sec::Protected { tag, .. }) = kind else {
            return Ok(None);
        };
        let mut candidates = Vec::new(self.alloc);
        auditor.known.known(tag.sci, tag.an, &mut candidates)?;
        let place = self.trials.len();
        self.octets = self.octets.saturating_add(octets.len());
        self.trials.push(Trial {
            octets,
            start,
            tag: *tag,
            candidates,
            newest: None,
        })?;
        Ok(Some(place))
    }

    /// Settles a packet of this kind, whose frame begins at this octet, where none waits, and writes its
    /// lines.
    fn settle_alone<K: Sink>(
        &mut self,
        auditor: &mut Auditor,
        kind: Kind,
        start: usize,
        packet: Packet,
        sink: &mut K,
    ) -> Result<(), AuditEnd>
        requires sound { IsSound auditor.old }
        requires room { auditor.old.tally.all + 1 < 2 ^ 32 }
        requires start { start ≤ length packet.octets.items }
        requires fits { Fits auditor.old.groups (drop start packet.octets.items) kind }
        ensures settles { (asks : Asks) (ring : Ring) (before : List Unwrapped) (written : List ℕ) (one : Seen)
            → StandsAt asks ring before [] written auditor.old self.old
            → IsJudged ring one packet.head kind (drop start packet.octets.items)
            → distributes kind ≡ true
            → SettlesAlone asks ring before one written (K.held sink.old) (K.held sink.new)
            auditor.new self.new result }
        ensures sound { OnOk result (IsSound auditor.new) }
        ensures groups { OnOk result (auditor.new.groups ≡ auditor.old.groups) }
        ensures ready { OnOk result (self.new.waiting.items ≡ self.old.waiting.items) }
        ensures trials { OnOk result (self.new.trials.items ≡ self.old.trials.items) }
        ensures count { OnOk result (auditor.new.tally.all ≡ auditor.old.tally.all + 1) }
        ensures write_fault { RisesAt (Err ends.WriteFault) (K.faults sink.old) (K.faults sink.new) result }
    {
        let line = self.begin(auditor.tally.all + 1, &packet.octets[start..], &kind)?;
        let alone = Waiting {
            head: packet.head,
            kind,
            line,
            trial: None,
        };
        tell(self.asks, auditor, &alone, None, &mut self.text)?;
        self.write(sink)
    }

    /// Settles the packets that wait, one after the other, and writes their lines.
    pub fn settle<T: Threads + Sync, K: Sink>(
        &mut self,
        rt: &T,
        auditor: &mut Auditor,
        sink: &mut K,
    ) -> Result<(), AuditEnd>
        requires sound { IsSound auditor.old }
        requires ready { IsReady auditor.old.groups self.old }
        requires room { auditor.old.tally.all + length self.old.waiting.items < 2 ^ 32 }
        ensures settles { (asks : Asks) (ring : Ring) (before : List Unwrapped) (packets : List Seen)
            (written : List ℕ) → StandsAt asks ring before packets written auditor.old self.old
            → SettlesUp asks ring before packets written (K.held sink.old) (K.held sink.new)
            auditor.new self.new result }
        ensures sound { OnOk result (IsSound auditor.new) }
        ensures groups { OnOk result (auditor.new.groups ≡ auditor.old.groups) }
        ensures ready { OnOk result (self.new.waiting.items ≡ []) }
        ensures trials { OnOk result (self.new.trials.items ≡ []) }
        ensures count { OnOk result
            (auditor.new.tally.all ≡ auditor.old.tally.all + length self.old.waiting.items) }
        ensures write_fault { RisesAt (Err ends.WriteFault) (K.faults sink.old) (K.faults sink.new) result }
    {
        run_trials(rt, auditor.known.prepared(), &mut self.trials);
        tell_all(
            self.asks,
            auditor,
            &self.waiting,
            &self.trials,
            &mut self.text,
        )?;
        self.waiting.clear();
        self.trials.clear();
        self.octets = 0;
        self.write(sink)
    }

    /// Writes the lines.
    pub fn write<K: Sink>(&mut self, sink: &mut K) -> Result<(), AuditEnd>
        ensures writes { Writes self.old.text.items (K.held sink.old) (K.held sink.new) result }
        ensures empty { OnOk result (self.new.text.items ≡ []) }
        ensures waiting { self.new.waiting.items ≡ self.old.waiting.items }
        ensures trials { self.new.trials.items ≡ self.old.trials.items }
        ensures asks { self.new.asks ≡ self.old.asks }
        ensures write_fault { RisesAt (Err ends.WriteFault) (K.faults sink.old) (K.faults sink.new) result }
    {
        let result = write_all(sink, &self.text);
        self.text.clear();
        match result {
            Ok(()) => Ok(()),
            Err(Unwritten::Failed) => Err(AuditEnd::WriteFault),
            Err(Unwritten::Memory) => Err(AuditEnd::Memory),
        }
    }
}

/// Settles packets that wait, whose frames were tried, and appends their lines.
fn tell_all(
    asks: Asks,
    auditor: &mut Auditor,
    waiting: &[Waiting],
    trials: &[Trial],
    text: &mut Vec<u8>,
) -> Result<(), AuditEnd>
    requires sound { IsSound auditor.old }
    requires groups { All (λ w. IsOfGroup auditor.old.groups w.kind) waiting.now }
    requires room { auditor.old.tally.all + length waiting.now < 2 ^ 32 }
    ensures tells { (ring : Ring) (before : List Unwrapped) (packets : List Seen)
        → Keeps ring before auditor.old
        → AreWaiting asks ring (entries ring before) (map newest trials.now) (number_behind before)
        packets waiting.now
        → TellsAll asks ring before packets auditor.new text.old.items text.new.items result }
    ensures ends { result ≢ Err ends.WriteFault }
    ensures sound { OnOk result (IsSound auditor.new) }
    ensures groups { OnOk result (auditor.new.groups ≡ auditor.old.groups) }
    ensures count { OnOk result (auditor.new.tally.all ≡ auditor.old.tally.all + length waiting.now) }
{
    for each in waiting {
        let newest = newest_at(trials, each.trial);
        tell(asks, auditor, each, newest, text)?;
    }
    Ok(())
}

/// The key that was found in a place, if there is one.
fn newest_at(trials: &[Trial], place: Option<usize>) -> Option<u32>
    ensures { result ≡ found_at (map newest trials.now) place }
{
    match trials.get(place?) {
        Some(trial) => trial.newest,
        None => None,
    }
}

/// Settles a packet, and appends its lines. A key too many leaves all as it was.
fn tell(
    asks: Asks,
    auditor: &mut Auditor,
    waiting: &Waiting,
    newest: Option<u32>,
    text: &mut Vec<u8>,
) -> Result<(), AuditEnd>
    requires sound { IsSound auditor.old }
    requires room { auditor.old.tally.all + 1 < 2 ^ 32 }
    requires group { IsOfGroup auditor.old.groups waiting.now.kind }
    ensures tells { (ring : Ring) (before : List Unwrapped) (packet : Seen)
        → Keeps ring before auditor.old
        → IsFound ring before packet waiting.now.head waiting.now.kind newest
        → waiting.now.line.items ≡ begun_part asks.shows (number_behind before)
        (begun_words (frame_of packet.octets) (packet_kind ring.groups packet))
        → Tells asks ring before packet auditor.old auditor.new text.old.items text.new.items result }
    ensures ends { result ≢ Err ends.WriteFault }
    ensures sound { OnOk result (IsSound auditor.new) }
    ensures groups { OnOk result (auditor.new.groups ≡ auditor.old.groups) }
    ensures count { OnOk result (auditor.new.tally.all ≡ auditor.old.tally.all + 1) }
{
    let finding = auditor.settle(&waiting.head, &waiting.kind, newest)?;
    let number = auditor.tally.all;
    put_finding(asks.shows, &waiting.line, number, &finding, asks.keys, text)?;
    Ok(())
}

/// Whether octets have an EtherType that begins otherwise than those of VLAN tags, of protected frames and
/// of key agreement.
fn has_other_type(octets: &[u8]) -> bool
    ensures { result ≡ has_other_type octets.now }
{
    octets.len() > ETHER_TYPE && octets[ETHER_TYPE] != 0x81 && octets[ETHER_TYPE] != 0x88
}

/// Whether a packet is a right MKPDU with a Distributed SAK.
fn distributes(kind: &Kind) -> bool
    ensures { result ≡ distributes kind.now }
{
    match kind {
        Kind::Mka(Mka::Right { spelled, .. }) => spelled.announcement.given.is_some(),
        _ => false,
    }
}
