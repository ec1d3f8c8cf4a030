//! The report at the end is written.

ghost use Rattle.std.specs.Prelude.{◌++◌, ℕ, List, Option, Err};
ghost use Rattle.audit_report.specs.Members.{member_line, member_lines};
ghost use Rattle.audit_report.specs.Report.{end_lines};
ghost use Rattle.capture_audit.specs.declared.end.AuditEnd.TheVariants as ends;
ghost use Rattle.capture_audit.specs.Ends.{RisesAt};
ghost use Rattle.capture_audit.specs.inside.Batches.{Writes};
ghost use Rattle.capture_audit.specs.inside.Reporting.{IsWrittenOn, WritesOn};

use crate::batch::Batch;
use crate::end::AuditEnd;
use audit_report::{Ending, Tally, Verdict, begin_end, finish_end, put_member};
use lan_base::Sink;
use member_notes::Member;

/// Lines of members are written when they have so many octets.
const MOST_TEXT: usize = 65_536;

/// Writes the lines of a batch, and behind them what is told at the end.
pub fn write_end<K: Sink>(
    tally: &Tally,
    verdict: &Verdict,
    ending: Ending,
    batch: &mut Batch,
    sink: &mut K,
) -> Result<(), AuditEnd>
    ensures writes { Writes (batch.old.text.items ++ end_lines tally.now verdict.now ending)
        (K.held sink.old) (K.held sink.new) result }
    ensures write_fault { RisesAt (Err ends.WriteFault) (K.faults sink.old) (K.faults sink.new) result }
{
    begin_end(tally, verdict, ending, &mut batch.text)?;
    write_members(verdict.members(), batch, sink)?;
    finish_end(batch.alloc, tally, verdict, &mut batch.text)?;
    batch.write(sink)
}

/// Appends the lines of members to those of a batch, which are written now and then, so that they never
/// stand in memory together.
fn write_members<K: Sink>(
    members: &[Member],
    batch: &mut Batch,
    sink: &mut K,
) -> Result<(), AuditEnd>
    ensures writes { (all : List ℕ) (held : Option (List ℕ))
        → IsWrittenOn all held (K.held sink.old) batch.old.text.items
        → WritesOn (all ++ member_lines members.now) held (K.held sink.new) batch.new.text.items result }
    ensures write_fault { RisesAt (Err ends.WriteFault) (K.faults sink.old) (K.faults sink.new) result }
{
    for member in members {
        write_member(member, batch, sink)?;
    }
    Ok(())
}

/// Appends the line of a member to those of a batch, which are written if they are many.
fn write_member<K: Sink>(member: &Member, batch: &mut Batch, sink: &mut K) -> Result<(), AuditEnd>
    ensures writes { (all : List ℕ) (held : Option (List ℕ))
        → IsWrittenOn all held (K.held sink.old) batch.old.text.items
        → WritesOn (all ++ member_line member.now) held (K.held sink.new) batch.new.text.items result }
    ensures write_fault { RisesAt (Err ends.WriteFault) (K.faults sink.old) (K.faults sink.new) result }
{
    put_member(member, &mut batch.text)?;
    if batch.text.len() < MOST_TEXT {
        return Ok(());
    }
    batch.write(sink)
}
