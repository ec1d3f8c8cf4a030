//! What an announcement says of the keys in use.

ghost use Rattle.std.specs.Prelude.{IfSome};
ghost use Rattle.mkpdu_codec.specs.Sets.{IsKey};

use lan_base::{AssociationNumber, Mi};

/// The use of one key: its identifier and association number, whether its announcer transmits and
/// receives with it, and the lowest packet number that the announcer accepts under it. All fields
/// of a key that is not held are zero, and its association number is the first.
#[derive(Clone, Copy, Debug, PartialEq, Eq)]
pub struct KeyUse {
    pub server: Mi,
    pub number: u32,
    pub an: AssociationNumber,
    pub tx: bool,
    pub rx: bool,
    pub lowest: u32,
}

/// The MACsec SAK Use parameter set (IEEE Std 802.1X, clause 11): the latest key and the old one.
#[derive(Clone, Copy, Debug, PartialEq, Eq)]
pub struct Uses {
    pub latest: KeyUse,
    pub old: KeyUse,
}

/// The use of a key is in the ranges of its types. Nothing runs.
fn is_key(key: KeyUse)
    ensures { IsKey key }
{}

/// The keys of a SAK Use are in the ranges of their types. Nothing runs.
pub fn are_uses(uses: Option<Uses>)
    ensures { IfSome uses (λ u. IsKey u.latest × IsKey u.old) }
{
    if let Some(Uses { latest, old }) = uses {
        is_key(latest);
        is_key(old);
    }
}
