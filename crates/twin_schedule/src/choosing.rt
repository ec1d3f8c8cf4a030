//! What was chosen before the first station sets up two groups.

ghost use Rattle.std.specs.Prelude.{◌≡◌, ℕ, List, [], None, IfOk, OnOk, IfErr, IfSome, Option, is_some, true};
ghost use Rattle.lan_base.specs.declared.frame.UserFrame.{UserFrame};
ghost use Rattle.lan_base.specs.Ranges.{IsCkn};
ghost use Rattle.lan_core.specs.declared.settings.Settings.{Settings};
ghost use Rattle.cak_roll.specs.Standing.{StandsFor as TwinStandsFor};
ghost use Rattle.cak_roll.specs.Answers.{second_fault};
ghost use Rattle.trace_acts.specs.declared.halt.Halt.{Halt};
ghost use Rattle.trace_acts.specs.Settings.{settings_of, rule_of};
ghost use Rattle.trace_acts.specs.Supply.{draw_at, supply_nth};
ghost use Rattle.twin_schedule.specs.World.{second_of};
ghost use Rattle.twin_schedule.specs.Standing.{MayOpen};
ghost use Rattle.twin_schedule.specs.inside.Choosing.{CanOpen};

use cak_roll::Twin;
use lan_core::Settings;
use mka_kdf::GroupError;
use std::alloc::Global;
use trace_acts::{Choices, Halt, Keyed, Kind, Supply, settings_of, supply_of};

/// What was chosen: a supply of which nothing was drawn, and two groups to which nothing happened. Where
/// a group can't be opened, the line of this number isn't allowed.
pub fn opening_of(
    alloc: Global,
    chosen: &Choices,
    second: &Option<Keyed>,
    line: u32,
) -> Result<(Supply, Twin), Halt>
    ensures draws { IfOk result (λ opening. (k : ℕ)
        → supply_nth opening.0 k ≡ draw_at (rule_of chosen.now) k) }
    ensures stands { IfOk result (λ opening. (users : List UserFrame)
        → TwinStandsFor (record {
          first = settings_of chosen.now;
          second = second_of (settings_of chosen.now) second.now;
        }) users opening.1 []) }
    ensures there { IfOk result (λ opening. is_some opening.1.second ≡ is_some second.now) }
    ensures memory { is_some chosen.now.group ≡ true → MayOpen chosen.now.group second.now
        → IfErr result (λ halt. halt ≡ Halt.Memory) }
{
    let settings = settings_of(alloc, chosen)?;
    let draws = supply_of(alloc, chosen)?;
    let twin = twin_of(alloc, settings, second, line)?;
    Ok((draws, twin))
}

/// Two groups to which nothing happened; the second one counts as the first until it comes.
fn twin_of(
    alloc: Global,
    settings: Settings,
    second: &Option<Keyed>,
    line: u32,
) -> Result<Twin, Halt>
    ensures stands { IfOk result (λ twin. (users : List UserFrame)
        → TwinStandsFor
        (record { first = settings; second = second_of settings second.now }) users twin []) }
    ensures there { IfOk result (λ twin. is_some twin.second ≡ is_some second.now) }
    ensures memory { CanOpen settings.ckn second.now → IfErr result (λ halt. halt ≡ Halt.Memory) }
{
    let mut twin = first_of(alloc, settings, line)?;
    match take_second(alloc, &mut twin, second, line) {
        Ok(()) => Ok(twin),
        Err(halt) => {
            drop(twin);
            Err(halt)
        }
    }
}

/// A first group to which nothing happened. A name of a wrong length isn't allowed in the line of this
/// number.
fn first_of(alloc: Global, settings: Settings, line: u32) -> Result<Twin, Halt>
    ensures stands { IfOk result (λ twin. (users : List UserFrame)
        → TwinStandsFor (record { first = settings; second = settings }) users twin []) }
    ensures alone { IfOk result (λ twin. twin.second ≡ None) }
    ensures memory { IsCkn settings.ckn → IfErr result (λ halt. halt ≡ Halt.Memory) }
{
    match Twin::new(alloc, settings) {
        Ok(twin) => Ok(twin),
        Err(GroupError::Refused(_)) => Err(Halt::Trace {
            line,
            kind: Kind::Order,
        }),
        Err(GroupError::Memory) => Err(Halt::Memory),
    }
}

/// The second group comes, if it was chosen, to two groups to which nothing happened. One that is
/// refused isn't allowed in the line of this number.
fn take_second(
    alloc: Global,
    twin: &mut Twin,
    second: &Option<Keyed>,
    line: u32,
) -> Result<(), Halt>
    ensures stands { (first : Settings) (users : List UserFrame)
        → TwinStandsFor (record { first = first; second = first }) users twin.old []
        → OnOk result (TwinStandsFor
        (record { first = first; second = second_of first second.now }) users twin.new []) }
    ensures there { twin.old.second ≡ None
        → OnOk result (is_some twin.new.second ≡ is_some second.now) }
    ensures memory { IfSome second.now (λ keyed. second_fault twin.old keyed.ckn ≡ None)
        → IfErr result (λ halt. halt ≡ Halt.Memory) }
{
    let Some(keyed) = second else {
        return Ok(());
    };
    let ckn = keyed.ckn.copied(alloc)?;
    match twin.second(keyed.cak, ckn) {
        Ok(()) => Ok(()),
        Err(_) => Err(Halt::Trace {
            line,
            kind: Kind::Order,
        }),
    }
}
