//! The readers of both groups.

ghost use Rattle.std.specs.Prelude.{◌≡◌, IfOk};
ghost use Rattle.transcript_reader.specs.declared.group.Group.TheVariants.{First, Second};
ghost use Rattle.transcript_reader.specs.Facts.{unnamed};
ghost use Rattle.transcript_reader.specs.inside.Seeing.{IsRead, both, is_unread};

use crate::group::Group;
use lan_base::Name;
use lan_core::Fact;
use std::alloc::{AllocError, Global};
use std::marker::Model;
use transcript::{FactError, Reader, read_fact};

/// Reads the texts of facts of two groups. Contracts see the names of each.
#[derive(Drop)]
pub struct Readers {
    first: Reader,
    second: Reader,
}

impl Model for Readers {
    ghost use Rattle.transcript_reader.specs.Facts.{Names};

    ghost Value = { Names };

    ghost view = { λ r. record { first = r.first; second = r.second } };
}

impl Readers {
    /// No name is known. Takes the memory for all that can come.
    pub fn new(alloc: Global) -> Result<Readers, AllocError>
        ensures { IfOk result (λ readers. readers ≡ unnamed) }
    {
        Ok(Readers {
            first: Reader::new(alloc)?,
            second: Reader::new(alloc)?,
        })
    }

    /// The names of the stations, by place.
    pub fn names(&self) -> &[Name]
        ensures { result.now ≡ self.now.first }
    {
        self.first.names()
    }

    /// The fact of a group whose line a text is. An error leaves the value as it was.
    pub fn read(&mut self, alloc: Global, group: Group, text: &[u8]) -> Result<Fact, FactError>
        ensures { IsRead group self.old text.now self.new result }
    {
        match group {
            Group::First => self.read_first(alloc, text),
            Group::Second => self.read_second(alloc, text),
        }
    }

    /// The fact of the first group whose line a text is.
    fn read_first(&mut self, alloc: Global, text: &[u8]) -> Result<Fact, FactError>
        ensures { IsRead First self.old text.now self.new result }
    {
        let fact = self.first.line(alloc, text);
        self.first.names();
        fact
    }

    /// The fact of the second group whose line a text is: its station has the place of the first.
    fn read_second(&mut self, alloc: Global, text: &[u8]) -> Result<Fact, FactError>
        ensures { IsRead Second self.old text.now self.new result }
    {
        let here = read_fact(alloc, text, self.first.names());
        if is_unread(&here) {
            return here;
        }
        let there = self.second.line(alloc, text);
        both(here, there)
    }
}

/// Whether a text is the line of no fact.
fn is_unread(read: &Result<Fact, FactError>) -> bool
    ensures { result ≡ is_unread read.now }
{
    matches!(read, Err(FactError::Unread))
}

/// What was read first, if something was read then too.
fn both(here: Result<Fact, FactError>, there: Result<Fact, FactError>) -> Result<Fact, FactError>
    ensures { result ≡ both here there }
{
    match there {
        Ok(_) => here,
        Err(fault) => Err(fault),
    }
}
