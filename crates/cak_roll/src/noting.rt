//! What an event of a group drew, judged and noted among the draws of both groups.

ghost use Rattle.std.specs.Prelude.{◌≡◌, OnOk};
ghost use Rattle.lan_core.specs.Lives.{drawn_mi, drawn_sak};
ghost use Rattle.lan_core.specs.Stops.{sak_of_tick};
ghost use Rattle.cak_roll.specs.inside.Noting.{repeating, given_before, draws_of, IsNoted};

use aes_block::Secret;
use lan_base::{Mi, Suite};
use lan_core::{Drawn, Event, Fact, Stop};
use std::alloc::AllocError;

/// The member identifier that facts begin a life with.
pub fn mi_in(facts: &[Fact]) -> Option<Mi>
    ensures { result ≡ drawn_mi facts.now }
{
    for fact in facts {
        if let Fact::Life { mi, .. } = fact {
            return Some(*mi);
        }
    }
    None
}

/// The key that an event drew.
pub fn sak_in(event: &Event, facts: &[Fact]) -> Option<Secret>
    ensures { result ≡ sak_of_tick facts.now event.now }
{
    match event {
        Event::Tick { .. } => installed(facts),
        _ => None,
    }
}

/// The key that facts install.
fn installed(facts: &[Fact]) -> Option<Secret>
    ensures { result ≡ drawn_sak facts.now }
{
    for fact in facts {
        if let Fact::Installed { sak, .. } = fact {
            return Some(*sak);
        }
    }
    None
}

/// How many draws gave a value.
pub fn draws_of(suite: Suite, mi: Option<Mi>, sak: Option<Secret>) -> u64
    ensures { result ≡ draws_of suite mi sak }
{
    let begun = if mi.is_some() { 1 } else { 0 };
    let made = if sak.is_some() { suite.sak_draws() } else { 0 };
    begun + made
}

/// The stop of the next draw of both, which has this number, where it gave what another gave before.
pub fn repeating(drawn: &Drawn, next: u64, mi: Option<Mi>, sak: Option<Secret>) -> Option<Stop>
    ensures { result ≡ repeating next (given_before drawn.now mi sak) }
{
    let first = given_before(drawn, mi, sak)?;
    Some(Stop::RepeatedDraw {
        first,
        second: next,
    })
}

/// The number of the draw that gave a value before.
fn given_before(drawn: &Drawn, mi: Option<Mi>, sak: Option<Secret>) -> Option<u64>
    ensures { result ≡ given_before drawn.now mi sak }
{
    let by_mi = mi.and_then(|mi| drawn.number_of_mi(&mi));
    by_mi.or(sak.and_then(|sak| drawn.number_of_sak(&sak)))
}

/// A value that was drawn is noted, if there is one.
pub fn note(
    drawn: &mut Drawn,
    suite: Suite,
    mi: Option<Mi>,
    sak: Option<Secret>,
) -> Result<(), AllocError>
    ensures { OnOk result (IsNoted suite drawn.old drawn.new mi sak) }
{
    match (mi, sak) {
        (Some(mi), _) => drawn.note_mi(mi),
        (None, Some(sak)) => drawn.note_sak(&sak, suite.sak_draws()),
        (None, None) => Ok(()),
    }
}
