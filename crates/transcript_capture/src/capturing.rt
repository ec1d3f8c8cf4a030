//! A transcript is captured: its frames become a file.

ghost use Rattle.std.specs.Prelude.{◌≡◌, ◌≤◌, ℕ, List, Err, Some};
ghost use Rattle.lan_base.specs.Faults.{Rose};
ghost use Rattle.text_lines.specs.Reading.{sourced};
ghost use Rattle.text_lines.specs.declared.unfinished.Unfinished.TheVariants as ends;
ghost use Rattle.transcript_capture.specs.Captures.{CapturesInTurn, IsCaptured};
ghost use Rattle.transcript_capture.specs.inside.Heading.{Heads};

use crate::fault::LineFault;
use crate::recording::Recording;
use capture_file::header;
use lan_base::{Sink, Source, Unwritten, write_all};
use std::alloc::Global;
use text_lines::Unfinished;
use transcript_reader::{Reading, read_transcript};

/// Reads a transcript from a source to its end, and writes the file of the frames that were put on the
/// air: its head first, and each record as soon as the line has ended.
pub fn capture<S: Source, K: Sink>(
    alloc: Global,
    source: &mut S,
    sink: &mut K,
) -> Result<(), Unfinished<LineFault>>
    ensures captured { (text : List ℕ) → S.left source.old ≡ Some text → IsCaptured text
        (sourced (S.left source.old) (S.faults source.old))
        (sourced (S.left source.new) (S.faults source.new))
        (K.held sink.old) (K.held sink.new) result }
    ensures turned { CapturesInTurn S.Gave source.old source.new (K.held sink.old)
        (K.held sink.new) result }
    ensures read_fault { result ≡ Err ends.ReadFault
        → Rose (S.faults source.old) (S.faults source.new) }
    ensures write_fault { result ≡ Err ends.WriteFault
        → Rose (K.faults sink.old) (K.faults sink.new) }
    ensures reads { S.faults source.old ≤ S.faults source.new }
    ensures writes { K.faults sink.old ≤ K.faults sink.new }
{
    let mut reading = Reading::new(alloc, Recording::new(alloc))?;
    write_head(alloc, sink)?;
    read_transcript(source, &mut reading, sink)
}

/// Writes the head of a file.
fn write_head<K: Sink>(alloc: Global, sink: &mut K) -> Result<(), Unfinished<LineFault>>
    ensures heads { Heads (K.held sink.old) (K.held sink.new) result }
    ensures failed { result ≡ Err ends.WriteFault → Rose (K.faults sink.old) (K.faults sink.new) }
    ensures counts { K.faults sink.old ≤ K.faults sink.new }
{
    let mut head = Vec::new(alloc);
    header(&mut head)?;
    match write_all(sink, &head) {
        Ok(()) => Ok(()),
        Err(Unwritten::Failed) => Err(Unfinished::WriteFault),
        Err(Unwritten::Memory) => Err(Unfinished::Memory),
    }
}
