//! What an event showed in both groups is kept and told.

ghost use Rattle.std.specs.Prelude.{◌≡◌, ◌++◌, ◌∷◌, [], map, OnOk};
ghost use Rattle.cak_roll.specs.Twin.{of_group};
ghost use Rattle.cak_roll.specs.declared.event.GroupNumber.TheVariants as groups;
ghost use Rattle.twin_schedule.specs.inside.Telling.{started_name, started_sci, adopted_name};
ghost use Rattle.twin_schedule.specs.inside.Telling.{sent_in, report_with, AreTelling};

use crate::party::put_senders;
use crate::recorder::TwinRecorder;
use cak_roll::{GroupNumber, Told, TwinEvent};
use lan_base::{Name, Sci, Unwritten};
use std::alloc::AllocError;

/// A station that starts has a name and an SCI, and one that adopts the second group its name there.
pub fn admit(
    first: &mut Vec<Name>,
    second: &mut Vec<Name>,
    scis: &mut Vec<Sci>,
    event: &TwinEvent,
) -> Result<(), AllocError>
    ensures first { OnOk result (first.new.items ≡ first.old.items ++ started_name event.now) }
    ensures second { OnOk result (second.new.items
        ≡ second.old.items ++ adopted_name first.old.items event.now) }
    ensures scis { OnOk result (scis.new.items ≡ scis.old.items ++ started_sci event.now) }
{
    match event {
        TwinEvent::Start { name, sci, .. } => {
            first.push(*name)?;
            scis.push(*sci)?;
        }
        TwinEvent::Adopt { station } => {
            if let Some(name) = first.get(usize::from(*station)) {
                second.push(*name)?;
            }
        }
        _ => {}
    }
    Ok(())
}

/// The senders of the frames that were put on the air of each group come.
pub fn put_all_senders(
    first: &mut Vec<u8>,
    second: &mut Vec<u8>,
    told: &[Told],
) -> Result<(), AllocError>
    ensures first { OnOk result (first.new.items ≡ first.old.items ++ sent_in groups.First told.now) }
    ensures second { OnOk result (second.new.items
        ≡ second.old.items ++ sent_in groups.Second told.now) }
{
    for one in told {
        put_told(first, second, one)?;
    }
    Ok(())
}

/// The senders of the frames that were put on the air of one group come.
fn put_told(first: &mut Vec<u8>, second: &mut Vec<u8>, told: &Told) -> Result<(), AllocError>
    ensures first { OnOk result (first.new.items
        ≡ first.old.items ++ sent_in groups.First (told.now ∷ [])) }
    ensures second { OnOk result (second.new.items
        ≡ second.old.items ++ sent_in groups.Second (told.now ∷ [])) }
{
    match told.group {
        GroupNumber::First => put_senders(first, told.facts.as_slice()),
        GroupNumber::Second => put_senders(second, told.facts.as_slice()),
    }
}

/// What an event showed in both groups is told, under the names that the stations have in each.
pub fn tell<K, R: TwinRecorder<K>>(
    first: &[Name],
    second: &[Name],
    told: &[Told],
    recorder: &mut R,
    outlet: &mut K,
) -> Result<(), Unwritten>
    ensures { AreTelling R.Took R.Broke (map (report_with first.now second.now) told.now) outlet.old
        outlet.new result }
{
    for one in told {
        let names = names_in(one.group, first, second);
        recorder.record(one.group, names, one.facts.as_slice(), outlet)?;
    }
    Ok(())
}

/// The names of the stations of a group.
fn names_in<'a>(group: GroupNumber, first: &'a [Name], second: &'a [Name]) -> &'a [Name]
    ensures { result.now ≡ of_group group first.now second.now }
{
    match group {
        GroupNumber::First => first,
        GroupNumber::Second => second,
    }
}
