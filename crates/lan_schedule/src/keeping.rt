//! What events show is kept, to be told later.

ghost use Rattle.std.specs.Prelude.{◌≡◌, ◌++◌, ◌∷◌, [], OnOk, IfOk, length};
ghost use Rattle.lan_schedule.specs.inside.Weaves.{first_kept, rest_kept, reports_with};

use crate::recorder::{Preparing, Recorder};
use lan_base::{Name, Unwritten};
use lan_core::Facts;
use std::alloc::{AllocError, Global};
use std::collections::VecDeque;
use std::marker::Model;

/// The facts of events, the oldest first. Contracts see a list for each event.
#[derive(Drop)]
pub struct KeptEvents {
    shown: VecDeque<Facts>,
}

impl Model for KeptEvents {
    ghost use Rattle.std.specs.Prelude.{List};
    ghost use Rattle.lan_core.specs.declared.fact.Fact.{Fact};

    ghost Value = { List (List Fact) };

    ghost view = { λ k. k.shown.items };
}

impl KeptEvents {
    /// Nothing happened.
    pub fn new(alloc: Global) -> Self
        ensures { result ≡ [] }
    {
        KeptEvents {
            shown: VecDeque::new(alloc),
        }
    }

    /// One event more showed facts.
    pub fn keep(&mut self, facts: Facts) -> Result<(), AllocError>
        ensures { OnOk result (self.new ≡ self.old ++ facts ∷ []) }
    {
        self.shown.push_back(facts)?;
        Ok(())
    }

    /// A recorder makes all of this ready, so that telling it wants no memory. How many reports it is.
    pub fn prepare<K, R: Preparing<K>>(
        &self,
        names: &[Name],
        recorder: &mut R,
    ) -> Result<usize, AllocError>
        ensures { IfOk result (λ count. (count ≡ length self.now)
            × R.Ready recorder.new (reports_with names.now self.now)) }
    {
        recorder.clear();
        for facts in &self.shown {
            recorder.prepare(names, facts.as_slice())?;
        }
        Ok(self.shown.len())
    }

    /// Takes out what the oldest event showed, if there is one.
    pub fn next(&mut self) -> Option<Facts>
        ensures { (result ≡ first_kept self.old) × (self.new ≡ rest_kept self.old) }
    {
        self.shown.pop_front()
    }
}

/// A recorder that keeps what it is told, whatever the names.
#[derive(Clone, Copy, Debug)]
pub struct Keeping;

impl Recorder<KeptEvents> for Keeping {
    ghost use Rattle.lan_schedule.specs.inside.Weaves.{KeepsReport, KeepsNoMore};

    ghost Took = { KeepsReport };

    ghost Broke = { KeepsNoMore };

    fn record(
        &mut self,
        _names: &[Name],
        facts: Facts,
        outlet: &mut KeptEvents,
    ) -> Result<(), Unwritten> {
        outlet.keep(facts)?;
        Ok(())
    }
}
