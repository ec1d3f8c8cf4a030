//! The lines of a transcript, one after another, which name its stations.

ghost use Rattle.std.specs.Prelude.{ℕ, ◌≡◌, ◌<◌, ◌≤◌, ◌++◌, ◌∷◌, ◌↔◌, [], List, length, Some, None, Err, IfOk, IfSome, OnErr};
ghost use Rattle.lan_base.specs.Name.{IsName};
ghost use Rattle.lan_core.specs.declared.fact.Fact.{Fact};
ghost use Rattle.transcript.specs.Naming.{Reads, most_named};
ghost use Rattle.transcript.specs.Rendering.{AreNames, IsOfFrame};
ghost use Rattle.transcript.specs.inside.Naming.{name_in, begins_as_life, grown_by, Answered};
ghost use Rattle.transcript.specs.inside.Reading.{station_of};
ghost use Rattle.transcript.specs.inside.Taking.{Takes};
ghost use Rattle.transcript.specs.declared.fault.FactError.TheVariants.{Unread, Memory};

use crate::fault::FactError;
use crate::reading::answer_fact;
use crate::spelling::place_of;
use crate::words::{next_word, split_word};
use lan_base::Name;
use lan_core::Fact;
use std::alloc::{AllocError, Global};
use std::marker::Model;

/// The most stations that a transcript names.
const MOST_NAMED: usize = 16;

/// Reads the lines of a transcript. Its stations are named by its `life` lines, at most 16.
/// Contracts see the names by place.
#[derive(Drop)]
pub struct Reader {
    names: Vec<Name>,
}

impl Model for Reader {
    ghost use Rattle.std.specs.Prelude.{List};
    ghost use Rattle.lan_base.specs.declared.name.Name.{Name};
    ghost use Rattle.std.specs.Prelude.{◌≡◌, ◌≤◌, length, vec_capacity};
    ghost use Rattle.transcript.specs.Naming.{most_named};
    ghost use Rattle.transcript.specs.Rendering.{AreNames};

    ghost Value = { List Name };

    ghost view = { λ r. r.names.items };

    ghost invariant = { λ r. AreNames r.names.items × (length r.names.items ≤ most_named)
        × (vec_capacity r.names ≡ most_named) };
}

impl Reader {
    /// No name is known. Takes the memory for all that can come.
    pub fn new(alloc: Global) -> Result<Reader, AllocError>
        ensures { IfOk result (λ reader. reader ≡ []) }
    {
        Ok(Reader {
            names: Vec::with_capacity(alloc, MOST_NAMED)?,
        })
    }

    /// The names that are known, by place.
    pub fn names(&self) -> &[Name]
        ensures value { result.now ≡ self.now }
        ensures named { AreNames self.now }
        ensures few { length self.now ≤ most_named }
    {
        self.names.as_slice()
    }

    /// The fact of the next line, without its line feed. A `life` line under a well-formed name that
    /// is not known names the next station. An error leaves the names as they were.
    pub fn line(&mut self, alloc: Global, line: &[u8]) -> Result<Fact, FactError>
        ensures read { IfOk result (λ fact. Reads self.old line.now self.new fact) }
        ensures found { (after : List (List ℕ)) (fact : Fact) → Reads self.old line.now after fact
            → IfOk result (λ answer. (answer ≡ fact) × (self.new ≡ after)) }

        // Memory is never wanting in place of `Unread`, and only for the line of a frame.
        ensures unread { (result ≡ Err Unread) ↔ ((after : List (List ℕ)) (fact : Fact)
            → Reads self.old line.now after fact → ⊥) }
        ensures memory { result ≡ Err Memory → (after : List (List ℕ)) × (fact : Fact)
            × Reads self.old line.now after fact }
        ensures frames { result ≡ Err Memory → (after : List (List ℕ)) (fact : Fact)
            → Reads self.old line.now after fact → IsOfFrame fact }
        ensures kept { OnErr result (self.new ≡ self.old) }
    {
        match name_in(line) {
            Some(name) => self.life(alloc, line, name),
            None => answer_fact(alloc, line, self.names.as_slice()),
        }
    }

    /// Reads a `life` line under this name.
    fn life(&mut self, alloc: Global, line: &[u8], name: Name) -> Result<Fact, FactError>
        requires { IsName name }
        ensures answered { Answered self.old line.now self.new result (grown_by self.old (Some name)) }
        ensures named { AreNames self.old }
        ensures few { length self.old ≤ most_named }
    {
        if place_of(name.octets(), self.names.as_slice()).is_some() {
            return answer_fact(alloc, line, self.names.as_slice());
        }
        if self.names.len() == MOST_NAMED {
            return Err(FactError::Unread);
        }
        self.admit(alloc, line, name)
    }

    /// Reads a `life` line under a name that is not known.
    fn admit(&mut self, alloc: Global, line: &[u8], name: Name) -> Result<Fact, FactError>
        requires named { IsName name }
        requires unknown { station_of self.old name ≡ None }
        requires room { length self.old < most_named }
        ensures { Answered self.old line.now self.new result (Some (self.old ++ name ∷ [])) }
    {
        self.names.push_reserved(name);
        match answer_fact(alloc, line, self.names.as_slice()) {
            Ok(fact) => Ok(fact),
            Err(fault) => {
                self.names.pop();
                Err(fault)
            }
        }
    }
}

/// The name that a `life` line gives.
fn name_in(line: &[u8]) -> Option<Name>
    ensures value { Takes (λ name. name) result (name_in line.now) }
    ensures named { IfSome result IsName }
{
    if !begins_as_life(line) {
        return None;
    }
    let (first, rest) = split_word(line);
    if first != b"life".as_slice() {
        return None;
    }
    let (word, _) = next_word(rest)?;
    Name::of(word)
}

/// Whether a line begins with the first letter of `life`, as a quick test before its words are cut.
fn begins_as_life(line: &[u8]) -> bool
    ensures { result ≡ begins_as_life line.now }
{
    matches!(line, [b'l', ..])
}
