//! The parameter sets behind the Basic Parameter Set.

ghost use Rattle.std.specs.Prelude.{◌≡◌, ◌≤◌, length};
ghost use Rattle.mkpdu_codec.specs.Refusals.{is_indicator, is_length_of};
ghost use Rattle.mkpdu_codec.specs.Reading.{nothing, noted, placed, shaped_at, gathered};
ghost use Rattle.mkpdu_codec.specs.inside.Views.{set_of, Gives, gathered_of};

use crate::distributed_sak::is_given_len;
use crate::high_halves::has_highs;
use crate::layout::{DISTRIBUTED_SAK, ICV_INDICATOR, LIVE_PEERS, POTENTIAL_PEERS, SAK_USE};
use crate::peer_list::is_peers_len;
use crate::refusal::Refusal;
use crate::sak_use::is_uses_len;
use crate::set::{ParameterSet, read_set};

/// The sets that are read, at most one of each type, and the first that has high halves.
#[derive(Clone, Copy)]
pub struct Found<'a> {
    pub live: Option<ParameterSet<'a>>,
    pub potential: Option<ParameterSet<'a>>,
    pub uses: Option<ParameterSet<'a>>,
    pub given: Option<ParameterSet<'a>>,
    pub highs: Option<ParameterSet<'a>>,
}

/// Keeps the first set that has high halves.
fn note<'a>(found: Found<'a>, set: ParameterSet<'a>) -> Found<'a>
    ensures { gathered_of result ≡ noted (set_of set.entry) (gathered_of found.entry) }
{
    if has_highs(set) && found.highs.is_none() {
        return Found {
            highs: Some(set),
            ..found
        };
    }
    found
}

/// Gives a set the place of its type, or refuses a second set of the type.
#[tactic(auto, unfolding(crate::specs::Reading::placed))]
fn place<'a>(found: Found<'a>, set: ParameterSet<'a>) -> Result<Found<'a>, Refusal>
    ensures { Gives gathered_of result (placed (gathered_of found.entry) (set_of set.entry)) }
{
    let set_of_kind = Some(set);
    match set.kind {
        LIVE_PEERS if found.live.is_none() => Ok(Found {
            live: set_of_kind,
            ..found
        }),
        POTENTIAL_PEERS if found.potential.is_none() => Ok(Found {
            potential: set_of_kind,
            ..found
        }),
        SAK_USE if found.uses.is_none() => Ok(Found {
            uses: set_of_kind,
            ..found
        }),
        DISTRIBUTED_SAK if found.given.is_none() => Ok(Found {
            given: set_of_kind,
            ..found
        }),
        LIVE_PEERS..=DISTRIBUTED_SAK => Err(Refusal::Repeated { kind: set.kind }),
        _ => Ok(note(found, set)),
    }
}

/// The lengths that a type allows. A set of the ICV Indicator's type is not one of those.
fn is_length_of_kind(kind: u8, len: usize) -> bool
    ensures { result ≡ is_length_of kind len }
{
    match kind {
        LIVE_PEERS | POTENTIAL_PEERS => is_peers_len(len),
        SAK_USE => is_uses_len(len),
        DISTRIBUTED_SAK => is_given_len(len),
        ICV_INDICATOR => false,
        _ => true,
    }
}

/// Reads the set in front, which has a length of its type. The check value begins at `end`.
#[tactic(auto, unfolding(crate::specs::Reading::shaped_at))]
fn read_shaped(end: usize, octets: &[u8]) -> Result<(ParameterSet<'_>, &[u8]), Refusal>
    requires { length octets.now ≤ end }
    ensures { Gives (λ x. (set_of x.0, x.1.now)) result (shaped_at end octets.now) }
{
    match read_set(octets) {
        Some((set, rest)) if is_length_of_kind(set.kind, set.body.len()) => Ok((set, rest)),
        _ => Err(Refusal::Shape {
            at: end - octets.len(),
        }),
    }
}

/// The octets are the header of an ICV Indicator, directly before the check value.
fn is_icv_indicator(octets: &[u8]) -> bool
    ensures { result ≡ is_indicator octets.now }
{
    match octets {
        [ICV_INDICATOR, _, third, 16] => third % 16 == 0,
        _ => false,
    }
}

/// Reads the sets that are left. The check value begins at `end`.
pub fn read_found(end: usize, octets: &[u8]) -> Result<Found<'_>, Refusal>
    requires { length octets.now ≤ end }
    ensures { Gives gathered_of result (gathered (length octets.now) end nothing octets.now) }
{
    let mut found = Found {
        live: None,
        potential: None,
        uses: None,
        given: None,
        highs: None,
    };
    let mut rest = octets;
    while !rest.is_empty() && !is_icv_indicator(rest) {
        let (set, behind) = read_shaped(end, rest)?;
        found = place(found, set)?;
        rest = behind;
    }
    Ok(found)
}
