//! Lines are judged one by one.

ghost use Rattle.std.specs.Prelude.{◌≡◌, ◌<◌, ◌↔◌, [], List, Err, IfOk, OnErr};
ghost use Rattle.lan_core.specs.declared.fact.Fact.{Fact};
ghost use Rattle.transcript_reader.specs.Facts.{Known, nothing};
ghost use Rattle.transcript_check.specs.Standing.{IsCheckOf, IsVerdict, IsLineTaken, IsDenied, IsDue};
ghost use Rattle.transcript_check.specs.declared.fault.CheckError.TheVariants.{Refused, Memory};
ghost use Rattle.transcript_check.specs.declared.fault.CheckFault.{CheckFault};

use crate::fault::CheckError;
use crate::notes::Notes;
use crate::verdict::Verdict;
use std::alloc::{AllocError, Global};
use std::marker::Model;
use transcript_reader::FactReader;

/// Judges the lines of a transcript. Contracts see what is known from them, and what is kept of their
/// facts.
#[derive(Drop)]
pub struct Check {
    reader: FactReader,
    notes: Notes,
}

impl Model for Check {
    ghost use Rattle.transcript_check.specs.Standing.{Standing};

    ghost Value = { Standing };

    ghost view = { λ c. record { known = c.reader; maps = c.notes } };
}

impl Check {
    /// No line was taken.
    pub fn new(alloc: Global) -> Result<Check, AllocError>
        ensures { IfOk result (λ check. IsCheckOf nothing [] check) }
    {
        Ok(Check {
            reader: FactReader::new(alloc)?,
            notes: Notes::new(alloc),
        })
    }

    /// The next line, without its line feed. An error leaves the value as it was.
    pub fn line(&mut self, alloc: Global, line: &[u8]) -> Result<(), CheckError>
        requires { self.old.maps.count < 18446744073709551615 }
        ensures taken { (known : Known) (facts : List Fact) → IsCheckOf known facts self.old
            → IfOk result (λ _. IsLineTaken known facts line.now self.new) }
        ensures refused { (known : Known) (facts : List Fact) → IsCheckOf known facts self.old
            → (why : CheckFault)
            → (result ≡ Err (Refused why)) ↔ IsDenied known facts line.now why }

        // Memory is never wanting in place of a refusal.
        ensures memory { (known : Known) (facts : List Fact) → IsCheckOf known facts self.old
            → result ≡ Err Memory → IsDue known facts line.now }
        ensures kept { OnErr result (self.new ≡ self.old) }
    {
        let fact = self.reader.line(alloc, line)?;
        self.notes.note(&fact)
    }

    /// How many lines were taken.
    pub fn count(&self) -> u64
        ensures { result ≡ self.now.maps.count }
    {
        self.notes.count()
    }

    /// The verdict on the lines that were taken.
    pub fn verdict(&self) -> Verdict
        ensures { (known : Known) (facts : List Fact) → IsCheckOf known facts self.now
            → IsVerdict facts result }
    {
        self.notes.verdict()
    }
}
