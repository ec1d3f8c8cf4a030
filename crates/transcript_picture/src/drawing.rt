//! A transcript is read from a source and drawn.

ghost use Rattle.std.specs.Prelude.{◌≡◌, List, ℕ, Some, IfErr};
ghost use Rattle.text_lines.specs.Reading.{sourced};
ghost use Rattle.text_lines.specs.declared.unfinished.Unfinished.TheVariants as ends;
ghost use Rattle.transcript_check.specs.Transcripts.{IsReadAlone};
ghost use Rattle.transcript_picture.specs.Transcripts.{EndsDrawing};

use crate::sheet::picture;
use crate::sketch::Sketch;
use lan_base::Source;
use std::alloc::Global;
use text_lines::Unfinished;
use transcript_check::CheckFault;
use transcript_reader::{Reading, read_transcript};

/// Reads a transcript from a source to its end, and answers its picture: a text in SVG that stands
/// alone. Clauses that name a text speak of a source that tells its octets.
pub fn draw<S: Source>(alloc: Global, source: &mut S) -> Result<Vec<u8>, Unfinished<CheckFault>>
    ensures drawn { (text : List ℕ) → S.left source.old ≡ Some text → EndsDrawing text
        (sourced (S.left source.old) (S.faults source.old))
        (sourced (S.left source.new) (S.faults source.new)) result }
    ensures read_fault { IsReadAlone (S.faults source.old) (S.faults source.new) result }
{
    let mut reading = Reading::new(alloc, Sketch::new(alloc))?;
    read_transcript(source, &mut reading, &mut ())?;
    finished(alloc, &reading)
}

/// The picture of all lines, where there is memory for it.
fn finished(alloc: Global, reading: &Reading<Sketch>) -> Result<Vec<u8>, Unfinished<CheckFault>>
    ensures { IfErr result (λ why. why ≡ ends.Memory) }
{
    match picture(alloc, reading.taker().scene(), reading.reader()) {
        Ok(picture) => Ok(picture),
        Err(_) => Err(Unfinished::Memory),
    }
}
