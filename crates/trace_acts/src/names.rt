//! The names of stations.

ghost use Rattle.std.specs.Prelude.{◌≡◌, nat_eq};
ghost use Rattle.std.specs.List.{position_or_len};
ghost use Rattle.std.specs.Cmp.Lexicographic.{pointwise};
ghost use Rattle.trace_acts.specs.Kinds.{unknown};
ghost use Rattle.trace_acts.specs.Names.{is_in};

use crate::halt::Kind;
use lan_base::Name;

/// The place of a name; where there is none, the count of names.
pub fn position(names: &[Name], name: &Name) -> usize
    ensures { result ≡ position_or_len (pointwise nat_eq name.now) names.now }
{
    for (place, other) in names.iter().enumerate() {
        if name.octets() == other.octets() {
            return place;
        }
    }
    names.len()
}

/// Whether no station has this name.
pub fn unknown(names: &[Name], name: &Name) -> Option<Kind>
    ensures { result ≡ unknown name.now names.now }
{
    if is_named(names, name) {
        None
    } else {
        Some(Kind::NameUnknown)
    }
}

/// Whether a station has this name.
pub fn is_named(names: &[Name], name: &Name) -> bool
    ensures { result ≡ is_in name.now names.now }
{
    names.iter().any(|other| name.octets() == other.octets())
}
