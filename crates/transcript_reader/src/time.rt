//! When time moves on.

ghost use Rattle.std.specs.Prelude.{◌≡◌};
ghost use Rattle.transcript_reader.specs.Time.{moves, own_after};

use crate::group::FURTHER;
use lan_core::Fact;

/// Whether a fact moves time on, by whether the last tick was the first station's own in the first group.
pub fn moves_time(own: bool, fact: &Fact) -> bool
    ensures { result ≡ moves own fact.now }
{
    match fact {
        Fact::Ticked { station, .. } => *station == 0 || *station == FURTHER && !own,
        _ => false,
    }
}

/// Whether the last tick was the first station's own in the first group, behind a fact more.
pub fn is_own(own: bool, fact: &Fact) -> bool
    ensures { result ≡ own_after own fact.now }
{
    match fact {
        Fact::Ticked { station, .. } => *station == 0,
        _ => own,
    }
}
