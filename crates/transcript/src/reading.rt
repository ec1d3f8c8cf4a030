//! A line is read back.

ghost use Rattle.std.specs.Prelude.{◌≡◌, ◌<◌, ◌↔◌, Err, IfOk, IfErr, length};
ghost use Rattle.lan_core.specs.declared.fact.Fact.{Fact};
ghost use Rattle.lan_core.specs.Run.{place};
ghost use Rattle.transcript.specs.Rendering.{Says, AreNames, IsOfFrame};
ghost use Rattle.transcript.specs.inside.Reading.{fact_in};
ghost use Rattle.transcript.specs.inside.Taking.{Answers, IsForFrame};
ghost use Rattle.transcript.specs.declared.fault.FactError.TheVariants.{Unread, Memory};

use crate::facts::{arrived, framed, plain_fact};
use crate::fault::FactError;
use crate::words::split_word;
use lan_base::Name;
use lan_core::Fact;
use std::alloc::Global;

/// The fact whose line this is, without its line feed, under the names of the stations by place.
pub fn read_fact(alloc: Global, line: &[u8], names: &[Name]) -> Result<Fact, FactError>
    ensures read { IfOk result (λ fact. Says names.now line.now fact) }
    ensures place { IfOk result (λ fact. place fact < length names.now) }
    ensures found { AreNames names.now → (fact : Fact) → Says names.now line.now fact
        → IfOk result (λ answer. answer ≡ fact) }

    // Memory is never wanting in place of `Unread`, and only for the line of a frame.
    ensures unread { AreNames names.now
        → (result ≡ Err Unread) ↔ ((fact : Fact) → Says names.now line.now fact → ⊥) }
    ensures memory { result ≡ Err Memory → (fact : Fact) × Says names.now line.now fact }
    ensures frames { AreNames names.now → result ≡ Err Memory
        → (fact : Fact) → Says names.now line.now fact → IsOfFrame fact }
{
    answer_fact(alloc, line, names)
}

/// Reads a line.
pub fn answer_fact(alloc: Global, line: &[u8], names: &[Name]) -> Result<Fact, FactError>
    ensures answers { Answers (λ x. x) result (fact_in names.now line.now) }
    ensures frames { IfErr result (λ fault. IsForFrame fault (fact_in names.now line.now)) }
{
    let (first, rest) = split_word(line);
    if first == b"frame".as_slice() {
        return framed(alloc, rest, names);
    }
    if first == b"data".as_slice() {
        return arrived(alloc, rest, names);
    }
    plain_fact(first, rest, names).ok_or(FactError::Unread)
}
