//! What each line before the first station chooses.

ghost use Rattle.std.specs.Prelude.{◌≡◌, ◌⊎◌, length, Some, OnOk};
ghost use Rattle.trace_text.specs.Writing.{IsInForm};
ghost use Rattle.trace_acts.specs.Settings.{secret_of};
ghost use Rattle.trace_acts.specs.Choosing.{listed_after, chosen_by};

use crate::choices::{Choices, Keyed, Rule};
use aes_block::Secret;
use lan_base::Blocks;
use std::alloc::{AllocError, Global};
use trace_text::Line;

/// A line before the first station chooses something for the group.
pub fn choose(alloc: Global, chosen: &mut Choices, line: &Line) -> Result<(), AllocError>
    requires { IsInForm line.now }
    ensures { OnOk result (chosen.new ≡ chosen_by line.now chosen.old) }
{
    match line {
        Line::DrawsCount => chosen.draws = Some(Rule::Counted),
        Line::DrawsChaCha { key } => chosen.draws = Some(Rule::Streamed(*key)),
        Line::DrawsList { values } => return list(alloc, chosen, values),
        Line::Conf { conf } => chosen.conf = Some(*conf),
        Line::Window { window } => chosen.window = Some(*window),
        Line::Rekey { rekey } => chosen.rekey = Some(*rekey),
        Line::Lag { lag } => chosen.lag = Some(*lag),
        Line::Suite { suite } => chosen.suite = Some(*suite),
        Line::Flag { early } => chosen.early_flag = Some(*early),
        Line::Group { cak, ckn } => {
            let cak = secret_of(cak.as_slice());
            let ckn = ckn.copied(alloc)?;
            chosen.group = Some(Keyed { cak, ckn });
        }
        _ => {}
    }
    Ok(())
}

/// Draws are listed, behind those that were listed before.
fn list(alloc: Global, chosen: &mut Choices, values: &Blocks) -> Result<(), AllocError>
    ensures { OnOk result (chosen.new
        ≡ record chosen.old { draws = Some (listed_after chosen.old.draws values.now) }) }
{
    if let Some(Rule::Listed(listed)) = &mut chosen.draws {
        return listed.extend(values.as_slice());
    }
    let mut listed = Blocks::new(alloc);
    listed.extend(values.as_slice())?;
    chosen.draws = Some(Rule::Listed(listed));
    Ok(())
}

/// A key of 16 octets, or of 32.
pub fn secret_of(octets: &[u8]) -> Secret
    requires { (length octets.now ≡ 16) ⊎ (length octets.now ≡ 32) }
    ensures { result ≡ secret_of octets.now }
{
    if octets.len() == 16 {
        let mut key = [0; 16];
        key.copy_from_slice(octets);
        Secret::S128(key)
    } else {
        let mut key = [0; 32];
        key.copy_from_slice(octets);
        Secret::S256(key)
    }
}
