//! What holds for a group, and where its draws come from, by what was chosen.

ghost use Rattle.std.specs.Prelude.{◌≡◌, ℕ, IfOk};
ghost use Rattle.trace_acts.specs.Settings.{settings_of, rule_of};
ghost use Rattle.trace_acts.specs.Supply.{draw_at, supply_nth};

use crate::choices::{Choices, Rule};
use crate::supply::Supply;
use aes_block::Secret;
use lan_base::{Octets, Suite};
use lan_core::Settings;
use std::alloc::{AllocError, Global};

/// The packet number from which a key is spent, where no line says so: three quarters of all.
const USUAL_REKEY: u32 = 3_221_225_472;

/// What holds for the whole group, by what was chosen.
pub fn settings_of(alloc: Global, chosen: &Choices) -> Result<Settings, AllocError>
    ensures { IfOk result (λ settings. settings ≡ settings_of chosen.now) }
{
    let (cak, ckn) = match &chosen.group {
        Some(group) => (group.cak, group.ckn.copied(alloc)?),
        None => (Secret::S128([0; 16]), Octets::new(alloc)),
    };
    Ok(Settings {
        cak,
        ckn,
        conf: chosen.conf.unwrap_or(1) == 1,
        early_flag: chosen.early_flag.unwrap_or(false),
        window: chosen.window.unwrap_or(0),
        rekey: chosen.rekey.unwrap_or(USUAL_REKEY),
        suite: chosen.suite.unwrap_or(Suite::GcmAes128),
    })
}

/// The supply that was chosen, from which nothing was drawn.
pub fn supply_of(alloc: Global, chosen: &Choices) -> Result<Supply, AllocError>
    ensures { IfOk result (λ supply. (k : ℕ)
        → supply_nth supply k ≡ draw_at (rule_of chosen.now) k) }
{
    match &chosen.draws {
        Some(rule) => Supply::of(alloc, rule),
        None => Supply::of(alloc, &Rule::Counted),
    }
}
