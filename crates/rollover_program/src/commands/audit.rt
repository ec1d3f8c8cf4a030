//! `audit`: a capture of a protected LAN is judged with its keys.

ghost use Rattle.std.specs.Prelude.{◌≡◌, true, false, Ok};
ghost use Rattle.replay.specs.Sinks.{sunk};
ghost use Rattle.rollover_program.specs.declared.words.Order.TheVariants as orders;
ghost use Rattle.rollover_program.specs.Outside.{outside};
ghost use Rattle.rollover_program.specs.Carried.{IsCarriedOut};
ghost use Rattle.rollover_program.specs.commands.Audit.{IsCompleteAudit, ShowsSeen, status_of_audit};

use crate::commands::draw::show;
use crate::status::Status;
use audit_facts::AuditView;
use audit_picture::picture;
use capture_audit::{Asks, AuditEnd, end_of_view, view_audit};
use lan_base::{Sink, Source};
use std::alloc::Global;
use std::thread::Threads;

/// Judges a capture with the keys that stand before it, and writes the report, as is asked for.
pub fn audit<T: Threads + Sync, S: Source, K: Sink>(
    rt: &T,
    alloc: Global,
    asks: Asks,
    source: &mut S,
    sink: &mut K,
) -> Status
    ensures carried { IsCarriedOut (orders.Audit asks false)
        (outside S.Source K.Sink source.old source.new sink.old sink.new) result }
    ensures complete { IsCompleteAudit asks
        (outside S.Source K.Sink source.old source.new sink.old sink.new) result }
{
    status_of_audit(capture_audit::audit(rt, alloc, asks, source, sink))
}

/// Judges a capture with the keys that stand before it, and writes the picture of what is seen of it when
/// reading has ended. Nothing is written where its head was not read.
pub fn draw_audit<T: Threads + Sync, S: Source, K: Sink>(
    rt: &T,
    alloc: Global,
    asks: Asks,
    source: &mut S,
    sink: &mut K,
) -> Status
    ensures carried { IsCarriedOut (orders.Audit asks true)
        (outside S.Source K.Sink source.old source.new sink.old sink.new) result }
    ensures complete { IsCompleteAudit asks
        (outside S.Source K.Sink source.old source.new sink.old sink.new) result }
{
    match view_audit(rt, alloc, source) {
        Ok(view) => show_view(alloc, asks, &view, sink),
        Err(end) => status_of_audit(Err(end)),
    }
}

/// Writes the picture of what is seen of a capture.
fn show_view<K: Sink>(alloc: Global, asks: Asks, view: &AuditView, sink: &mut K) -> Status
    ensures { ShowsSeen asks (Ok view.now) (sunk (K.held sink.old) (K.faults sink.old))
        (sunk (K.held sink.new) (K.faults sink.new)) result }
{
    let Ok(picture) = picture(alloc, view) else {
        return Status::Memory;
    };
    match show(picture.as_slice(), sink) {
        Status::Done => status_of_audit(end_of_view(view, asks.strict)),
        status => status,
    }
}

/// The status of how an audit ended.
fn status_of_audit(answer: Result<(), AuditEnd>) -> Status
    ensures { result ≡ status_of_audit answer }
{
    match answer {
        Ok(()) => Status::Done,
        Err(AuditEnd::KeyLine { line, why }) => Status::KeyLine { line, why },
        Err(AuditEnd::Refuted(breach)) => Status::CaptureRefuted(breach),
        Err(AuditEnd::Doubted { wrong, undecided }) => {
            Status::CaptureDoubted { wrong, undecided }
        }
        Err(AuditEnd::NotJudged) => Status::CaptureNotJudged,
        Err(AuditEnd::Refused { at, why }) => Status::Packets { at, why },
        Err(AuditEnd::InputLimit) => Status::CaptureInput,
        Err(AuditEnd::KeyLimit) => Status::Keys,
        Err(AuditEnd::ReadFault) => Status::ReadFault,
        Err(AuditEnd::WriteFault) => Status::WriteFault,
        Err(AuditEnd::Memory) => Status::Memory,
    }
}
