//! A transcript is read from a source and judged.

ghost use Rattle.std.specs.Prelude.{◌≡◌, List, ℕ, Some};
ghost use Rattle.text_lines.specs.Reading.{sourced};
ghost use Rattle.transcript_check.specs.Transcripts.{EndsJudging, IsReadAlone};

use crate::fault::CheckFault;
use crate::notes::Notes;
use crate::verdict::Verdict;
use lan_base::Source;
use lan_core::Fact;
use std::alloc::Global;
use text_lines::Unfinished;
use transcript_reader::{FactTaker, Reading, TakeError, read_transcript};

impl FactTaker<()> for Notes {
    ghost use Rattle.transcript_check.specs.declared.fault.CheckFault.TheVariants.{Unread};
    ghost use Rattle.transcript_check.specs.Standing.{Refuses, StandsFor, by_epochs, without_outlet};
    ghost use Rattle.transcript_check.specs.inside.Denying.{fact-denies};

    type Fault = CheckFault;

    ghost rule = { by_epochs };

    ghost Refuses = { Refuses };

    ghost unread = { Unread };

    ghost courses = { without_outlet StandsFor };

    ghost Grew = { λ old new. Unit {0} };

    ghost Fails = { λ old new. ⊥ };

    fn unread() -> CheckFault {
        CheckFault::Unread
    }

    fn fact(&mut self, fact: &Fact, _outlet: &mut ()) -> Result<(), TakeError<CheckFault>> {
        if self.count() == u64::MAX {
            return Err(TakeError::Memory);
        }
        self.note(fact)?;
        Ok(())
    }

    ghost untold = { λ known facts line none. none };

    ghost denied = { λ known after facts line fact why tells refused.
        fact-denies known facts line after fact tells why refused };

    ghost breaks = { λ first now facts took. tt };

    ghost stays = { λ a. tt };

    ghost further = { λ a b c earlier later. tt };

    ghost late = { λ a b c earlier fails. fails };
}

/// Reads a transcript from a source to its end, and judges each line as soon as it has ended.
/// Clauses that name a text speak of a source that tells its octets.
pub fn judge<S: Source>(alloc: Global, source: &mut S) -> Result<Verdict, Unfinished<CheckFault>>
    ensures judged { (text : List ℕ) → S.left source.old ≡ Some text → EndsJudging text
        (sourced (S.left source.old) (S.faults source.old))
        (sourced (S.left source.new) (S.faults source.new)) result }
    ensures read_fault { IsReadAlone (S.faults source.old) (S.faults source.new) result }
{
    let mut reading = Reading::new(alloc, Notes::new(alloc))?;
    read_transcript(source, &mut reading, &mut ())?;
    Ok(reading.taker().verdict())
}
