//! Packets are read and settled one after the other.

ghost use Rattle.std.specs.Prelude.{◌≡◌, ◌<◌, ◌^◌, ℕ, Bool, List, Option, None, Some, Ok, Err};
ghost use Rattle.audit_report.specs.declared.ending.Ending.TheVariants as endings;
ghost use Rattle.key_ring.specs.Rings.{Ring};
ghost use Rattle.capture_audit.specs.declared.asks.Asks.{Asks};
ghost use Rattle.capture_audit.specs.declared.end.AuditEnd.TheVariants as ends;
ghost use Rattle.capture_audit.specs.Ends.{RisesAt};
ghost use Rattle.capture_audit.specs.inside.Auditing.{CanRead, IsAuditing, ReadsOne, ReadsUp, ending_of, limit_of};

use crate::auditor::Auditor;
use crate::batch::Batch;
use crate::end::AuditEnd;
use audit_report::Ending;
use capture_packets::{FileEnd, Packet, PacketReader};
use lan_base::{Sink, Source};
use std::alloc::Global;
use std::thread::Threads;
use text_lines::End;

/// Reads packets until there are no more, and settles them.
pub fn read_packets<T: Threads + Sync, S: Source, K: Sink>(
    rt: &T,
    alloc: Global,
    reader: &mut PacketReader,
    source: &mut S,
    auditor: &mut Auditor,
    batch: &mut Batch,
    sink: &mut K,
) -> Result<Ending, AuditEnd>
    requires can { CanRead reader.old auditor.old batch.old }
    ensures reads { (asks : Asks) (ring : Ring) (told held : Option (List ℕ))
        → IsAuditing asks ring told held reader.old (S.left source.old) (K.held sink.old) auditor.old batch.old
        → ReadsUp asks ring told held (S.left source.new) (K.held sink.new) auditor.new batch.new result }
    ensures read_fault { RisesAt (Ok endings.Fault) (S.faults source.old) (S.faults source.new) result }
    ensures write_fault { RisesAt (Err ends.WriteFault) (K.faults sink.old) (K.faults sink.new) result }
{
    loop {
        if let Some(ending) = read_one(rt, alloc, reader, source, auditor, batch, sink)? {
            return Ok(ending);
        }
    }
}

/// Reads a packet and takes it; or settles those that wait, and answers how reading ended.
fn read_one<T: Threads + Sync, S: Source, K: Sink>(
    rt: &T,
    alloc: Global,
    reader: &mut PacketReader,
    source: &mut S,
    auditor: &mut Auditor,
    batch: &mut Batch,
    sink: &mut K,
) -> Result<Option<Ending>, AuditEnd>
    requires can { CanRead reader.old auditor.old batch.old }
    ensures reads { (asks : Asks) (ring : Ring) (told held : Option (List ℕ))
        → IsAuditing asks ring told held reader.old (S.left source.old) (K.held sink.old) auditor.old batch.old
        → ReadsOne asks ring told held reader.new (S.left source.new) (K.held sink.new) auditor.new batch.new result }
    ensures can { result ≡ Ok None → CanRead reader.new auditor.new batch.new }
    ensures more { result ≡ Ok None → reader.old.supply.given < reader.new.supply.given }
    ensures few { result ≡ Ok None → reader.new.supply.given < 2 ^ 32 }
    ensures read_fault { RisesAt (Ok (Some endings.Fault)) (S.faults source.old) (S.faults source.new) result }
    ensures write_fault { RisesAt (Err ends.WriteFault) (K.faults sink.old) (K.faults sink.new) result }
{
    let mut packet = Packet::new(alloc);
    match ending_of(reader.read(source, &mut packet))? {
        None => limit_of(batch.take(rt, auditor, packet, sink)),
        Some(ending) => {
            batch.settle(rt, auditor, sink)?;
            Ok(Some(ending))
        }
    }
}

/// How reading ended, if no packet was read.
fn ending_of(read: Result<bool, FileEnd>) -> Result<Option<Ending>, AuditEnd>
    ensures { result ≡ ending_of read }
{
    match read {
        Ok(true) => Ok(None),
        Ok(false) => Ok(Some(Ending::Whole)),
        Err(End::Refused((at, why))) => Ok(Some(Ending::Octet { at, why })),
        Err(End::Limit) => Ok(Some(Ending::InputLimit)),
        Err(End::ReadFault) => Ok(Some(Ending::Fault)),
        Err(End::Memory) => Err(AuditEnd::Memory),
    }
}

/// How reading ended, if a packet made a key too many.
fn limit_of(taken: Result<(), AuditEnd>) -> Result<Option<Ending>, AuditEnd>
    ensures { result ≡ limit_of taken }
{
    match taken {
        Ok(()) => Ok(None),
        Err(AuditEnd::KeyLimit) => Ok(Some(Ending::KeyLimit)),
        Err(end) => Err(end),
    }
}
