//! A capture that is audited for what is seen of it.

ghost use Rattle.std.specs.Prelude.{◌≡◌, ◌≢◌, ◌⊎◌, ◌<◌, ◌≤◌, ◌+◌, ◌^◌, ℕ, Bool, List, [], Option, None, Some, Ok, Err, length, IfOk};
ghost use Rattle.audit_report.specs.declared.ending.Ending.TheVariants as endings;
ghost use Rattle.audit_report.specs.Tallies.{tally_of};
ghost use Rattle.audit_report.specs.Verdicts.{doubt};
ghost use Rattle.key_ring.specs.Reading.{ReadsRing};
ghost use Rattle.key_ring.specs.Rings.{Ring};
ghost use Rattle.lan_base.specs.Faults.{Rose};
ghost use Rattle.capture_audit.specs.declared.end.AuditEnd.TheVariants as ends;
ghost use Rattle.capture_audit.specs.Before.{Unwrapped};
ghost use Rattle.capture_audit.specs.Ends.{EndsAudit, IsBroken, IsOfOutside, IsRefuted, RisesAt, end_for, end_of};
ghost use Rattle.capture_audit.specs.Reading.{IsRead};
ghost use Rattle.capture_audit.specs.Telling.{all_told, numbered_hand};
ghost use Rattle.capture_audit.specs.Views.{Views, end_seen};
ghost use Rattle.capture_audit.specs.inside.Auditing.{CanRead, IsAuditing, ReadsUp};
ghost use Rattle.capture_audit.specs.inside.Batches.{IsReady, StandsAt};
ghost use Rattle.capture_audit.specs.inside.Keeping.{IsSound};
ghost use Rattle.capture_audit.specs.inside.Viewing.{ReadsCapture};

use crate::asks::Asks;
use crate::auditing::{end_of, open};
use crate::auditor::Auditor;
use crate::batch::Batch;
use crate::end::AuditEnd;
use crate::hand::number_hand;
use crate::reading::read_packets;
use audit_facts::{AuditFacts, AuditView};
use audit_report::Ending;
use capture_packets::PacketReader;
use key_ring::{HandKey, KeyRing};
use key_wrap::law_one_key_for_one_wrap;
use lan_base::{DropSink, Source};
use octet_supply::Supply;
use std::alloc::Global;
use std::mem::replace;
use std::thread::Threads;

/// Reads a key text and behind it a capture from a source to its end, judges its packets as `audit` does,
/// and answers what is seen of them when reading has ended, however that was. An `Err` says why nothing
/// is seen: the head was not read, or memory ran out.
pub fn view_audit<T: Threads + Sync, S: Source>(
    rt: &T,
    alloc: Global,
    source: &mut S,
) -> Result<AuditView, AuditEnd>
    // What is seen of which packets, or why nothing is; and so the audit of the same text ends, of which
    // nothing is written.
    ensures views { (text : List ℕ) → S.left source.old ≡ Some text
        → Views text (S.left source.new) result }
    ensures audited { (asks : Asks) (text : List ℕ) → S.left source.old ≡ Some text
        → EndsAudit asks text (S.left source.new) (Rose (S.faults source.old) (S.faults source.new))
        None None (end_seen asks.strict result) }

    // Faults are those of the outside.
    ensures read_fault { RisesAt (Err ends.ReadFault) (S.faults source.old) (S.faults source.new) result }
    ensures fault { IfOk result (λ view. view.ending ≡ endings.Fault
        → Rose (S.faults source.old) (S.faults source.new)) }
    ensures unwritten { result ≢ Err ends.WriteFault }

    // Of a text whose packets can be read to their end nothing is missed.
    ensures broken { (asks : Asks) (text : List ℕ) (ring : Ring) (packets : List Unwrapped) (i j : ℕ)
        → S.left source.old ≡ Some text → IsRead text (Some []) ring packets endings.Whole
        → IsBroken ring packets i j
        → IsRefuted ring packets (Rose (S.faults source.old) (S.faults source.new)) (end_seen asks.strict result)
        ⊎ IsOfOutside asks (Rose (S.faults source.old) (S.faults source.new)) (end_seen asks.strict result) }
    ensures clean { (asks : Asks) (text : List ℕ) (ring : Ring) (packets : List Unwrapped)
        → S.left source.old ≡ Some text → IsRead text (Some []) ring packets endings.Whole
        → ((i j : ℕ) → IsBroken ring packets i j → ⊥)
        → (end_seen asks.strict result ≡ end_for (doubt asks.strict (tally_of (all_told ring packets))))
        ⊎ IsOfOutside asks (Rose (S.faults source.old) (S.faults source.new)) (end_seen asks.strict result) }
{
    law_one_key_for_one_wrap();
    let (ring, supply) = KeyRing::read(alloc, source)?;
    view_with(rt, alloc, ring, supply, source)
}

/// How an audit ends of whose capture this is seen, where it is asked or not that a protected frame is right,
/// and none wrong or undecided.
pub fn end_of_view(view: &AuditView, strict: bool) -> Result<(), AuditEnd>
    ensures { result ≡ end_seen strict (Ok view.now) }
{
    end_of(view.verdict.blame(strict, &view.tally), view.ending)
}

/// Audits the capture that a supply goes on with, if there is one, with what a key text says.
fn view_with<T: Threads + Sync, S: Source>(
    rt: &T,
    alloc: Global,
    ring: KeyRing,
    supply: Option<Supply>,
    source: &mut S,
) -> Result<AuditView, AuditEnd>
    requires few { length ring.groups < 2 ^ 32 }
    ensures views { (text : List ℕ) → ReadsRing text (S.left source.old) (Ok (ring, supply))
        → Views text (S.left source.new) result }
    ensures read_fault { RisesAt (Err ends.ReadFault) (S.faults source.old) (S.faults source.new) result }
    ensures fault { IfOk result (λ view. view.ending ≡ endings.Fault
        → Rose (S.faults source.old) (S.faults source.new)) }
    ensures unwritten { result ≢ Err ends.WriteFault }
{
    let hand = number_hand(alloc, &ring.hand)?;
    view_keyed(rt, alloc, ring, hand, supply, source)
}

/// The same, where the keys that are set by hand have these numbers.
fn view_keyed<T: Threads + Sync, S: Source>(
    rt: &T,
    alloc: Global,
    ring: KeyRing,
    hand: Vec<(u32, HandKey)>,
    supply: Option<Supply>,
    source: &mut S,
) -> Result<AuditView, AuditEnd>
    requires few { length ring.groups < 2 ^ 32 }
    ensures views { (text : List ℕ) → ReadsRing text (S.left source.old) (Ok (ring, supply))
        → hand.items ≡ numbered_hand ring → Views text (S.left source.new) result }
    ensures read_fault { RisesAt (Err ends.ReadFault) (S.faults source.old) (S.faults source.new) result }
    ensures fault { IfOk result (λ view. view.ending ≡ endings.Fault
        → Rose (S.faults source.old) (S.faults source.new)) }
    ensures unwritten { result ≢ Err ends.WriteFault }
{
    let asks = Asks {
        shows: false,
        strict: false,
        keys: false,
    };
    let mut text = Vec::new(alloc);
    let mut auditor = Auditor::of(alloc, ring, asks.keys, &mut text)?;
    let mut batch = Batch::new(alloc, asks, text);
    let read = read_capture(rt, alloc, supply, source, &mut auditor, &mut batch);
    view_of(alloc, &mut auditor, hand, read)
}

/// Reads the packets of the capture that a supply goes on with, if there is one, and settles them.
fn read_capture<T: Threads + Sync, S: Source>(
    rt: &T,
    alloc: Global,
    supply: Option<Supply>,
    source: &mut S,
    auditor: &mut Auditor,
    batch: &mut Batch,
) -> Result<Ending, AuditEnd>
    requires sound { IsSound auditor.old }
    requires ready { IsReady auditor.old.groups batch.old }
    requires room { auditor.old.tally.all + length batch.old.waiting.items ≤ 0 }
    ensures reads { (asks : Asks) (text : List ℕ) (ring : Ring)
        → ReadsRing text (S.left source.old) (Ok (ring, supply))
        → StandsAt asks ring [] [] [] auditor.old batch.old
        → ReadsCapture text ring (S.left source.new) auditor.new result }
    ensures read_fault { (asks : Asks) (ring : Ring) → StandsAt asks ring [] [] [] auditor.old batch.old
        → result ≡ Err ends.ReadFault → Rose (S.faults source.old) (S.faults source.new) }
    ensures fault { RisesAt (Ok endings.Fault) (S.faults source.old) (S.faults source.new) result }
    ensures unwritten { result ≢ Err ends.WriteFault }
{
    let mut reader = open(alloc, supply, source)?;
    read_quietly(rt, alloc, &mut reader, source, auditor, batch)
}

/// Reads packets until there are no more, and settles them; nothing is written.
fn read_quietly<T: Threads + Sync, S: Source>(
    rt: &T,
    alloc: Global,
    reader: &mut PacketReader,
    source: &mut S,
    auditor: &mut Auditor,
    batch: &mut Batch,
) -> Result<Ending, AuditEnd>
    requires can { CanRead reader.old auditor.old batch.old }
    ensures reads { (asks : Asks) (ring : Ring) (told : Option (List ℕ))
        → IsAuditing asks ring told None reader.old (S.left source.old) None auditor.old batch.old
        → ReadsUp asks ring told None (S.left source.new) None auditor.new batch.new result }
    ensures fault { RisesAt (Ok endings.Fault) (S.faults source.old) (S.faults source.new) result }
    ensures unwritten { result ≢ Err ends.WriteFault }
{
    let mut sink = DropSink;
    read_packets(rt, alloc, reader, source, auditor, batch, &mut sink)
}

/// What is seen of the packets that were read, if they were.
fn view_of(
    alloc: Global,
    auditor: &mut Auditor,
    hand: Vec<(u32, HandKey)>,
    read: Result<Ending, AuditEnd>,
) -> Result<AuditView, AuditEnd>
    ensures views { (text : List ℕ) (ring : Ring) (left : Option (List ℕ))
        → ReadsCapture text ring left auditor.old read → hand.items ≡ numbered_hand ring
        → Views text left result }
    ensures read_fault { result ≡ Err ends.ReadFault → read ≡ Err ends.ReadFault }
    ensures fault { IfOk result (λ view. read ≡ Ok view.ending) }
    ensures write_fault { result ≡ Err ends.WriteFault → read ≡ Err ends.WriteFault }
{
    let ending = read?;
    let verdict = auditor.verdict()?;
    let reports = auditor.facts.reported()?;
    Ok(AuditView {
        ending,
        tally: auditor.tally,
        verdict,
        hand,
        reports,
        facts: replace(&mut auditor.facts, AuditFacts::new(alloc)),
    })
}
