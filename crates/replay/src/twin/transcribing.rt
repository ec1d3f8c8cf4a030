//! The transcript of two groups on any sink.

ghost use Rattle.std.specs.Prelude.{◌≡◌, ◌++◌, OnOk};
ghost use Rattle.std.specs.List.{flat_map};
ghost use Rattle.replay.specs.twin.Written.{digit, marked};

use crate::write;
use cak_roll::GroupNumber;
use lan_base::{Name, Sink, Unwritten};
use lan_core::Fact;
use std::alloc::{AllocError, Global};
use transcript::render;
use twin_schedule::TwinRecorder;

/// A recorder that writes the lines of what each event shows in a group by one call.
#[derive(Drop)]
pub struct Transcript {
    /// The lines of one report.
    out: Vec<u8>,
}

impl Transcript {
    /// Nothing was rendered.
    pub fn new(alloc: Global) -> Self {
        Transcript {
            out: Vec::new(alloc),
        }
    }
}

impl<K: Sink> TwinRecorder<K> for Transcript {
    ghost use Rattle.std.specs.Prelude.{[], ◌∷◌};
    ghost use Rattle.replay.specs.Sinks.{Fails, Wrote, sunk};
    ghost use Rattle.replay.specs.twin.Written.{text_of};

    ghost Took = { λ old report new. Wrote (text_of report ∷ []) (sunk (K.held old) (K.faults old))
        (sunk (K.held new) (K.faults new)) };

    ghost Broke = { λ old report new why. Fails (text_of report ∷ [])
        (sunk (K.held old) (K.faults old)) (sunk (K.held new) (K.faults new)) why };

    fn record(
        &mut self,
        group: GroupNumber,
        names: &[Name],
        facts: &[Fact],
        outlet: &mut K,
    ) -> Result<(), Unwritten> {
        render_all(group, names, facts, &mut self.out)?;
        write(self.out.as_slice(), outlet)
    }
}

/// The digit of a group: 1 or 2.
fn digit(group: GroupNumber) -> u8
    ensures { result ≡ digit group }
{
    match group {
        GroupNumber::First => b'1',
        GroupNumber::Second => b'2',
    }
}

/// The lines of what an event showed in a group, in place of what the buffer had.
fn render_all(
    group: GroupNumber,
    names: &[Name],
    facts: &[Fact],
    out: &mut Vec<u8>,
) -> Result<(), AllocError>
    ensures { OnOk result (out.new.items ≡ flat_map (marked group names.now) facts.now) }
{
    out.clear();
    for fact in facts {
        render_marked(group, names, fact, out)?;
    }
    Ok(())
}

/// Appends the line of a fact, behind the digit of its group and a space.
fn render_marked(
    group: GroupNumber,
    names: &[Name],
    fact: &Fact,
    out: &mut Vec<u8>,
) -> Result<(), AllocError>
    ensures { OnOk result (out.new.items ≡ out.old.items ++ marked group names.now fact.now) }
{
    out.push(digit(group))?;
    out.push(b' ')?;
    render(fact, out, names)
}
