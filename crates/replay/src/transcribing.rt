//! The transcript of a run on any sink.

ghost use Rattle.std.specs.Prelude.{◌≡◌, OnOk};
ghost use Rattle.transcript.specs.Rendering.{transcript};

use crate::writing::write;
use lan_base::{Name, Sink, Unwritten};
use lan_core::{Fact, Facts};
use lan_schedule::{Preparing, Recorder};
use std::alloc::{AllocError, Global};
use std::collections::VecDeque;
use transcript::render;

/// A recorder that writes the lines of each event's facts by one call.
#[derive(Drop)]
pub struct Transcript {
    alloc: Global,
    /// The lines of one event.
    out: Vec<u8>,
    /// The lines of each event of a race that are ready.
    ready: VecDeque<Vec<u8>>,
}

impl Transcript {
    /// Nothing was rendered.
    pub fn new(alloc: Global) -> Self {
        Transcript {
            alloc,
            out: Vec::new(alloc),
            ready: VecDeque::new(alloc),
        }
    }
}

impl<K: Sink> Recorder<K> for Transcript {
    ghost use Rattle.std.specs.Prelude.{[], ◌∷◌};
    ghost use Rattle.replay.specs.Sinks.{Fails, Wrote, sunk};
    ghost use Rattle.replay.specs.Shown.{text_of};

    ghost Took = { λ old report new. Wrote (text_of report ∷ []) (sunk (K.held old) (K.faults old))
        (sunk (K.held new) (K.faults new)) };

    ghost Broke = { λ old report new why. Fails (text_of report ∷ [])
        (sunk (K.held old) (K.faults old)) (sunk (K.held new) (K.faults new)) why };

    fn record(&mut self, names: &[Name], facts: Facts, outlet: &mut K) -> Result<(), Unwritten> {
        render_all(facts.as_slice(), names, &mut self.out)?;
        write(self.out.as_slice(), outlet)
    }
}

impl<K: Sink> Preparing<K> for Transcript {
    ghost use Rattle.std.specs.Prelude.{◌≡◌, map};
    ghost use Rattle.replay.specs.Shown.{text_of};

    ghost Ready = { λ t reports. map (λ text. text.items) t.ready.items ≡ map text_of reports };

    fn clear(&mut self) {
        self.ready.clear();
    }

    fn prepare(&mut self, names: &[Name], facts: &[Fact]) -> Result<(), AllocError> {
        let mut text = Vec::new(self.alloc);
        render_all(facts, names, &mut text)?;
        self.ready.push_back(text)?;
        Ok(())
    }

    fn tell(&mut self, outlet: &mut K) -> Result<(), Unwritten> {
        match self.ready.pop_front() {
            Some(text) => write(text.as_slice(), outlet),
            None => Ok(()),
        }
    }
}

/// The lines of one event's facts, in place of what the buffer had.
fn render_all(facts: &[Fact], names: &[Name], out: &mut Vec<u8>) -> Result<(), AllocError>
    ensures { OnOk result (out.new.items ≡ transcript names.now facts.now) }
{
    out.clear();
    for fact in facts {
        render(fact, out, names)?;
    }
    Ok(())
}
