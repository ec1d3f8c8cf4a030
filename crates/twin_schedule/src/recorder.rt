//! Who is told what events of two groups show.

ghost use Rattle.std.specs.Prelude.{MatchResult};
ghost use Rattle.lan_base.specs.declared.sink.Unwritten.{Unwritten};
ghost use Rattle.twin_schedule.specs.Reports.{Report};

use cak_roll::GroupNumber;
use lan_base::{Name, Unwritten};
use lan_core::Fact;

/// Tells an outlet what events show in each group, each before the next one happens. The outlet is
/// passed beside the recorder, since a value that lends it would hide what it holds; of the recorder
/// itself, which may keep working space, nothing is said.
pub trait TwinRecorder<K> {
    /// From one value the outlet came to another as it was told a report.
    ghost Took: { K → Report → K → Type 0 };

    /// From one value it came to another as it was to be told a report, of which it took a front at
    /// most, for this reason.
    ghost Broke: { K → Report → K → Unwritten → Type 0 };

    /// Tells what an event of a group showed, under the names that the stations of the group have by
    /// then, in the order in which they joined it.
    fn record(
        &mut self,
        group: GroupNumber,
        names: &[Name],
        facts: &[Fact],
        outlet: &mut K,
    ) -> Result<(), Unwritten>
        ensures { MatchResult result
            (λ _. Took outlet.old
            (record { group = group; names = names.now; facts = facts.now }) outlet.new)
            (λ why. Broke outlet.old
            (record { group = group; names = names.now; facts = facts.now }) outlet.new why) };
}
