//! The high halves of packet numbers of 64 bits.

ghost use Rattle.std.specs.Prelude.{◌≡◌, IfSome};
ghost use Rattle.mkpdu_codec.specs.Sets.{AreHighs};
ghost use Rattle.mkpdu_codec.specs.Fields.{highs_in};
ghost use Rattle.mkpdu_codec.specs.Frames.{has_highs};
ghost use Rattle.mkpdu_codec.specs.inside.Views.{set_of, seen};

use crate::fields::read_number;
use crate::layout::XPN_PARAMETERS;
use crate::set::ParameterSet;

/// The XPN parameter set (IEEE Std 802.1X, clause 11): the high halves of the lowest acceptable
/// packet numbers of the latest key and of the old one, under a suite with extended packet numbers.
#[derive(Clone, Copy, Debug, PartialEq, Eq)]
pub struct HighHalves {
    pub latest: u32,
    pub old: u32,
}

/// High halves are in the ranges of their types. Nothing runs.
fn is_high(highs: HighHalves)
    ensures { AreHighs highs }
{}

/// High halves are in the ranges of their types. Nothing runs.
pub fn are_highs(highs: Option<HighHalves>)
    ensures { IfSome highs AreHighs }
{
    if let Some(highs) = highs {
        is_high(highs);
    }
}

/// Whether a set has high halves: by its type, and by its length.
pub fn has_highs<'a>(set: ParameterSet<'a>) -> bool
    ensures { result ≡ has_highs (set_of set.entry) }
{
    set.kind == XPN_PARAMETERS && set.body.len() == 8
}

/// The high halves of a set: none where there is no set.
#[tactic(auto, unfolding(crate::specs::Fields::highs_in))]
pub fn highs_of(set: Option<ParameterSet<'_>>) -> Option<HighHalves>
    ensures { result ≡ highs_in (seen set.entry) }
{
    let set = set?;
    let (latest, rest) = read_number(set.body)?;
    let (old, _) = read_number(rest)?;
    Some(HighHalves { latest, old })
}
