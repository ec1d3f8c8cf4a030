//! An audit, from the key text to the report.

ghost use Rattle.std.specs.Prelude.{◌≡◌, ◌≢◌, ◌⊎◌, ◌<◌, ◌≤◌, ◌+◌, ◌^◌, ℕ, Bool, List, [], Option, None, Some, Ok, Err, length};
ghost use Rattle.audit_report.specs.declared.ending.Ending.TheVariants as endings;
ghost use Rattle.audit_report.specs.Tallies.{tally_of};
ghost use Rattle.audit_report.specs.Verdicts.{doubt};
ghost use Rattle.key_ring.specs.Reading.{ReadsRing};
ghost use Rattle.key_ring.specs.Rings.{Ring};
ghost use Rattle.lan_base.specs.Faults.{Rose};
ghost use Rattle.capture_audit.specs.declared.end.AuditEnd.TheVariants as ends;
ghost use Rattle.capture_audit.specs.Before.{Unwrapped};
ghost use Rattle.capture_audit.specs.Ends.{EndsAudit, IsBroken, IsOfOutside, IsRefuted, RisesAt, end_at, end_for, end_of};
ghost use Rattle.capture_audit.specs.Reading.{IsRead};
ghost use Rattle.capture_audit.specs.Telling.{all_told};
ghost use Rattle.capture_audit.specs.inside.Auditing.{CanRead, HasRead, IsAuditing, IsHeadRead, OpensFile};
ghost use Rattle.capture_audit.specs.inside.Batches.{IsReady, StandsAt};
ghost use Rattle.capture_audit.specs.inside.Keeping.{IsSound};

use crate::asks::Asks;
use crate::auditor::Auditor;
use crate::batch::Batch;
use crate::end::AuditEnd;
use crate::reading::read_packets;
use crate::report::write_end;
use audit_report::{Blame, Ending};
use capture_packets::{CaptureFault, PacketReader};
use key_ring::KeyRing;
use key_wrap::law_one_key_for_one_wrap;
use lan_base::{Sink, Source};
use octet_supply::Supply;
use std::alloc::Global;
use std::thread::Threads;

/// Reads a key text and behind it a capture from a source to its end, judges its packets, and writes
/// the report: where that is asked for a line of each packet, what is told of some, and at the end what
/// was counted and judged. The lines of packets are written before many others are read.
pub fn audit<T: Threads + Sync, S: Source, K: Sink>(
    rt: &T,
    alloc: Global,
    asks: Asks,
    source: &mut S,
    sink: &mut K,
) -> Result<(), AuditEnd>
    // Whatever the end, what was read, what breaks, and what was written.
    ensures audited { (text : List ℕ) → S.left source.old ≡ Some text
        → EndsAudit asks text (S.left source.new) (Rose (S.faults source.old) (S.faults source.new))
        (K.held sink.old) (K.held sink.new) result }

    // Faults are those of the outside.
    ensures read_fault { RisesAt (Err ends.ReadFault) (S.faults source.old) (S.faults source.new) result }
    ensures write_fault { RisesAt (Err ends.WriteFault) (K.faults sink.old) (K.faults sink.new) result }

    // Of a text whose packets can be read to their end nothing is missed: where a pair of them breaks
    // it is refuted by the least, and else it ends as the frames that are asked about decide, but for
    // faults of the outside and want of memory.
    ensures broken { (text : List ℕ) (ring : Ring) (packets : List Unwrapped) (i j : ℕ)
        → S.left source.old ≡ Some text → IsRead text (Some []) ring packets endings.Whole
        → IsBroken ring packets i j
        → IsRefuted ring packets (Rose (S.faults source.old) (S.faults source.new)) result
        ⊎ IsOfOutside asks (Rose (S.faults source.old) (S.faults source.new)) result }
    ensures clean { (text : List ℕ) (ring : Ring) (packets : List Unwrapped)
        → S.left source.old ≡ Some text → IsRead text (Some []) ring packets endings.Whole
        → ((i j : ℕ) → IsBroken ring packets i j → ⊥)
        → (result ≡ end_for (doubt asks.strict (tally_of (all_told ring packets))))
        ⊎ IsOfOutside asks (Rose (S.faults source.old) (S.faults source.new)) result }
{
    law_one_key_for_one_wrap();
    let (ring, supply) = KeyRing::read(alloc, source)?;
    audit_with(rt, alloc, asks, ring, supply, source, sink)
}

/// Audits the capture that a supply goes on with, if there is one, with what a key text says.
fn audit_with<T: Threads + Sync, S: Source, K: Sink>(
    rt: &T,
    alloc: Global,
    asks: Asks,
    ring: KeyRing,
    supply: Option<Supply>,
    source: &mut S,
    sink: &mut K,
) -> Result<(), AuditEnd>
    requires few { length ring.groups < 2 ^ 32 }
    ensures audited { (text : List ℕ) → ReadsRing text (S.left source.old) (Ok (ring, supply))
        → EndsAudit asks text (S.left source.new) (Rose (S.faults source.old) (S.faults source.new))
        (K.held sink.old) (K.held sink.new) result }
    ensures read_fault { RisesAt (Err ends.ReadFault) (S.faults source.old) (S.faults source.new) result }
    ensures write_fault { RisesAt (Err ends.WriteFault) (K.faults sink.old) (K.faults sink.new) result }
{
    let mut text = Vec::new(alloc);
    let mut auditor = Auditor::of(alloc, ring, asks.keys, &mut text)?;
    let mut batch = Batch::new(alloc, asks, text);
    audit_capture(rt, asks, supply, source, &mut auditor, &mut batch, sink)
}

/// Audits the capture that a supply goes on with, if there is one.
fn audit_capture<T: Threads + Sync, S: Source, K: Sink>(
    rt: &T,
    asks: Asks,
    supply: Option<Supply>,
    source: &mut S,
    auditor: &mut Auditor,
    batch: &mut Batch,
    sink: &mut K,
) -> Result<(), AuditEnd>
    requires sound { IsSound auditor.old }
    requires ready { IsReady auditor.old.groups batch.old }
    requires room { auditor.old.tally.all + length batch.old.waiting.items ≤ 0 }
    ensures audited { (text : List ℕ) (ring : Ring)
        → ReadsRing text (S.left source.old) (Ok (ring, supply))
        → StandsAt asks ring [] [] [] auditor.old batch.old
        → EndsAudit asks text (S.left source.new) (Rose (S.faults source.old) (S.faults source.new))
        (K.held sink.old) (K.held sink.new) result }
    ensures read_fault { (ring : Ring) → StandsAt asks ring [] [] [] auditor.old batch.old
        → result ≡ Err ends.ReadFault → Rose (S.faults source.old) (S.faults source.new) }
    ensures reads { S.faults source.old ≤ S.faults source.new }
    ensures write_fault { RisesAt (Err ends.WriteFault) (K.faults sink.old) (K.faults sink.new) result }
{
    let mut reader = open(batch.alloc, supply, source)?;
    audit_packets(rt, asks, &mut reader, source, auditor, batch, sink)
}

/// Reads the head of the capture, if there is one.
pub(crate) fn open<S: Source>(
    alloc: Global,
    supply: Option<Supply>,
    source: &mut S,
) -> Result<PacketReader, AuditEnd>
    ensures opens { (text : List ℕ) (ring : Ring) → ReadsRing text (S.left source.old) (Ok (ring, supply))
        → OpensFile text (S.left source.new) result }
    ensures read_fault { RisesAt (Err ends.ReadFault) (S.faults source.old) (S.faults source.new) result }
    ensures unwritten { result ≢ Err ends.WriteFault }
{
    let Some(supply) = supply else {
        let why = CaptureFault::Cut;
        return Err(AuditEnd::Refused { at: 0, why });
    };
    Ok(PacketReader::open(alloc, supply, source)?)
}

/// Audits the packets of a capture whose head was read.
fn audit_packets<T: Threads + Sync, S: Source, K: Sink>(
    rt: &T,
    asks: Asks,
    reader: &mut PacketReader,
    source: &mut S,
    auditor: &mut Auditor,
    batch: &mut Batch,
    sink: &mut K,
) -> Result<(), AuditEnd>
    requires can { CanRead reader.old auditor.old batch.old }
    ensures audited { (text : List ℕ) (ring : Ring) (held : Option (List ℕ)) → IsHeadRead text ring
        → IsAuditing asks ring (Some text) held reader.old (S.left source.old) (K.held sink.old) auditor.old batch.old
        → EndsAudit asks text (S.left source.new) (Rose (S.faults source.old) (S.faults source.new))
        held (K.held sink.new) result }
    ensures read_fault { (ring : Ring) (held : Option (List ℕ))
        → IsAuditing asks ring None held reader.old (S.left source.old) (K.held sink.old) auditor.old batch.old
        → result ≡ Err ends.ReadFault → Rose (S.faults source.old) (S.faults source.new) }
    ensures reads { S.faults source.old ≤ S.faults source.new }
    ensures write_fault { RisesAt (Err ends.WriteFault) (K.faults sink.old) (K.faults sink.new) result }
{
    batch.write(sink)?;
    let ending = read_packets(rt, batch.alloc, reader, source, auditor, batch, sink)?;
    report(asks, auditor, ending, batch, sink)
}

/// Writes what is told at the end, and answers how the audit ends.
fn report<K: Sink>(
    asks: Asks,
    auditor: &Auditor,
    ending: Ending,
    batch: &mut Batch,
    sink: &mut K,
) -> Result<(), AuditEnd>
    ensures reports { (text : List ℕ) (ring : Ring) (left held : Option (List ℕ)) (faults faults_then : ℕ)
        → IsHeadRead text ring → (ending ≡ endings.Fault → Rose faults faults_then)
        → HasRead asks ring (Some text) held ending left (K.held sink.old) auditor.now batch.old
        → EndsAudit asks text left (Rose faults faults_then) held (K.held sink.new) result }
    ensures read_fault { result ≡ Err ends.ReadFault → ending ≡ endings.Fault }
    ensures write_fault { RisesAt (Err ends.WriteFault) (K.faults sink.old) (K.faults sink.new) result }
{
    let verdict = auditor.verdict()?;
    write_end(&auditor.tally, &verdict, ending, batch, sink)?;
    end_of(verdict.blame(asks.strict, &auditor.tally), ending)
}

/// How an audit ends whose capture is to blame for this, where reading ended so.
pub(crate) fn end_of(blame: Blame, ending: Ending) -> Result<(), AuditEnd>
    ensures { result ≡ end_of blame ending }
{
    match blame {
        Blame::None => end_at(ending),
        Blame::Refuted(breach) => Err(AuditEnd::Refuted(breach)),
        Blame::Doubted { wrong, undecided } => Err(AuditEnd::Doubted { wrong, undecided }),
        Blame::NotJudged => Err(AuditEnd::NotJudged),
    }
}

/// How an audit ends whose capture is to blame for nothing, where reading ended so.
fn end_at(ending: Ending) -> Result<(), AuditEnd>
    ensures { result ≡ end_at ending }
{
    match ending {
        Ending::Whole => Ok(()),
        Ending::Fault => Err(AuditEnd::ReadFault),
        Ending::InputLimit => Err(AuditEnd::InputLimit),
        Ending::KeyLimit => Err(AuditEnd::KeyLimit),
        Ending::Octet { at, why } => Err(AuditEnd::Refused { at, why }),
    }
}
