//! Who is told what events show.

ghost use Rattle.std.specs.Prelude.{◌≡◌, ◌⊎◌, ◌++◌, ◌∷◌, [], List, MatchResult, OnOk};
ghost use Rattle.lan_base.specs.declared.sink.Unwritten.{Unwritten};
ghost use Rattle.lan_base.specs.declared.sink.Unwritten.TheVariants.{Memory};
ghost use Rattle.lan_schedule.specs.Reports.{Report};

use lan_base::{Name, Unwritten};
use lan_core::{Fact, Facts};
use std::alloc::AllocError;

/// Tells an outlet what events show, each before the next one happens. The outlet is passed beside
/// the recorder, since a value that lends it would hide what it holds; of the recorder itself, which
/// may keep working space, nothing is said.
pub trait Recorder<K> {
    /// From one value the outlet came to another as it was told a report.
    ghost Took: { K → Report → K → Type 0 };

    /// From one value the outlet came to another as it was to be told a report, of which it took no
    /// more than a front, for this reason of its own.
    ghost Broke: { K → Report → K → Unwritten → Type 0 };

    /// Tells what an event showed, under the names that the stations have by then; where the recorder
    /// itself wants memory, nothing of it.
    fn record(&mut self, names: &[Name], facts: Facts, outlet: &mut K) -> Result<(), Unwritten>
        ensures { MatchResult result
            (λ _. Took outlet.old (record { names = names.now; facts = facts }) outlet.new)
            (λ why. Broke outlet.old (record { names = names.now; facts = facts }) outlet.new why
            ⊎ ((why ≡ Memory) × (outlet.new ≡ outlet.old))) };
}

/// A recorder that makes ready what it is to tell of a race, before it tells any of it. What is ready
/// wants no more memory: telling it fails for a reason of the outlet alone.
pub trait Preparing<K>: Recorder<K> {
    /// These reports are ready to be told, the first one first.
    ghost Ready: { Self → List Report → Type 0 };

    /// Nothing is ready.
    fn clear(&mut self)
        ensures { Ready self.new [] };

    /// Makes ready what an event showed, behind what is ready.
    fn prepare(&mut self, names: &[Name], facts: &[Fact]) -> Result<(), AllocError>
        ensures { (before : List Report) → Ready self.old before → OnOk result (Ready self.new
            (before ++ record { names = names.now; facts = facts.now } ∷ [])) };

    /// Tells the first report that is ready.
    fn tell(&mut self, outlet: &mut K) -> Result<(), Unwritten>
        ensures { (report : Report) (later : List Report) → Ready self.old (report ∷ later)
            → MatchResult result
            (λ _. Self.Took outlet.old report outlet.new × Ready self.new later)
            (λ why. Self.Broke outlet.old report outlet.new why) };
}
