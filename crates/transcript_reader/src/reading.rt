//! A transcript is read from a source, and its facts are taken.

ghost use Rattle.std.specs.Prelude.{◌≡◌, ◌≤◌, List, [], ℕ, Some, Err, IfOk};
ghost use Rattle.lan_base.specs.Faults.{Rose};
ghost use Rattle.text_lines.specs.Moments.{moment};
ghost use Rattle.text_lines.specs.Reading.{sourced};
ghost use Rattle.transcript_reader.specs.Facts.{nothing};
ghost use Rattle.transcript_reader.specs.Transcripts.{EndsReading};
ghost use Rattle.transcript_reader.specs.Reached.{Reached, WasReached};
ghost use Rattle.transcript_reader.specs.Turns.{ReadsInTurn};
ghost use Rattle.text_lines.specs.declared.unfinished.Unfinished.TheVariants as ends;
ghost use Rattle.transcript_reader.specs.inside.Lines.{not_read};

use crate::fact_reader::FactReader;
use crate::fact_taker::FactTaker;
use crate::take_error::TakeError;
use crate::unfinished::why_unfinished;
use lan_base::{INPUT_MAX, Source};
use std::alloc::{AllocError, Global};
use text_lines::{LineTaker, Unfinished, law_lines_are_few, read_lines};
use transcript::FactError;

/// A transcript that is read: what is known from its lines, how many there were, and who takes their
/// facts.
#[derive(Drop)]
pub struct Reading<T> {
    alloc: Global,
    reader: FactReader,
    count: u64,
    taker: T,
}

impl<T: Drop> Reading<T> {
    /// No line was read.
    pub fn new(alloc: Global, taker: T) -> Result<Reading<T>, AllocError>
        ensures { IfOk result (λ reading. (reading.reader ≡ nothing) × (reading.count ≡ 0)
            × (reading.taker ≡ taker)) }
    {
        Ok(Reading {
            alloc,
            reader: FactReader::new(alloc)?,
            count: 0,
            taker,
        })
    }

    /// Who takes the facts.
    pub fn taker(&self) -> &T
        ensures { result.now ≡ self.now.taker }
    {
        &self.taker
    }

    /// Who reads the lines.
    pub fn reader(&self) -> &FactReader
        ensures { result.now ≡ self.now.reader }
    {
        &self.reader
    }
}

impl<K, T: FactTaker<K>> LineTaker<K> for Reading<T> {
    ghost use Rattle.transcript_reader.specs.inside.Lines.{DidLines};
    ghost use Rattle.transcript_reader.specs.inside.Composing.{did-none, did-more, did-early};

    type Error = TakeError<T::Fault>;

    ghost Asks = { Unit {0} };

    ghost Did = { DidLines T.rule T.courses T.Grew T.Fails
        (record { known = λ r. r.reader; count = λ r. r.count; taker = λ r. r.taker }) };

    fn line(&mut self, text: &[u8], outlet: &mut K) -> Result<(), TakeError<T::Fault>> {
        if self.count == u64::MAX {
            return Err(TakeError::Memory);
        }
        let told = match self.reader.line(self.alloc, text) {
            Ok(fact) => fact,
            Err(fault) => return Err(not_read(fault, T::unread())),
        };
        self.taker.fact(&told, outlet)?;
        self.count += 1;
        Ok(())
    }

    ghost none = { λ a. did-none _ _ _ _ _ T.stays a };

    ghost more = { λ a b c xs ys r d e. did-more _ _ _ _ _ T.further T.late a b c xs ys r d e };

    ghost early = { λ a b xs ys error d. did-early _ _ _ _ _ a b xs ys error d };
}

/// Why a line is not taken that is not read.
fn not_read<F: Drop>(fault: FactError, unread: F) -> TakeError<F>
    ensures { result ≡ not_read fault unread }
{
    match fault {
        FactError::Unread => TakeError::Refused(unread),
        FactError::Memory => TakeError::Memory,
    }
}

/// Reads a transcript from a source to its end, within the limit: the fact of each line is taken as soon
/// as the line has ended. The clause that names a text speaks of a source that tells its octets.
pub fn read_transcript<S: Source, K, T: FactTaker<K>>(
    source: &mut S,
    reading: &mut Reading<T>,
    outlet: &mut K,
) -> Result<(), Unfinished<T::Fault>>
    ensures read { (text : List ℕ) → S.left source.old ≡ Some text
        → reading.old.reader ≡ nothing → reading.old.count ≡ 0
        → T.courses.Took (moment reading.old.taker outlet.old) [] (moment reading.old.taker outlet.old)
        → EndsReading T.rule
        (WasReached T.courses T.Grew (moment reading.old.taker outlet.old) (moment reading.new.taker outlet.new))
        (Reached T.courses (moment reading.old.taker outlet.old) (moment reading.new.taker outlet.new) result)
        text (sourced (S.left source.old) (S.faults source.old))
        (sourced (S.left source.new) (S.faults source.new)) result }

    // Whatever the source tells, the facts of the lines that end in what one read gives are taken
    // before the next one.
    ensures turned { reading.old.reader ≡ nothing → reading.old.count ≡ 0
        → T.courses.Took (moment reading.old.taker outlet.old) [] (moment reading.old.taker outlet.old)
        → ReadsInTurn S.Gave T.rule
        (WasReached T.courses T.Grew (moment reading.old.taker outlet.old) (moment reading.new.taker outlet.new))
        (Reached T.courses (moment reading.old.taker outlet.old) (moment reading.new.taker outlet.new) result)
        source.old source.new result }
    ensures read_fault { result ≡ Err ends.ReadFault
        → Rose (S.faults source.old) (S.faults source.new) }
    ensures write_fault { result ≡ Err ends.WriteFault → T.Fails outlet.old outlet.new }
    ensures reads { S.faults source.old ≤ S.faults source.new }
    ensures writes { T.Grew outlet.old outlet.new }
{
    law_lines_are_few();
    match read_lines(reading.alloc, INPUT_MAX, source, reading, outlet) {
        Ok(()) => Ok(()),
        Err(end) => Err(why_unfinished(end, reading.count)),
    }
}
