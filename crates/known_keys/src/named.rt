//! What an identifier names.

ghost use Rattle.std.specs.Prelude.{◌≡◌};
ghost use Rattle.known_keys.specs.OneKey.{same_named};

use lan_base::AssociationNumber;

/// The association number and the key, by its number, that an identifier of a key names.
#[derive(Clone, Copy, Debug, PartialEq, Eq)]
pub struct Named {
    pub an: AssociationNumber,
    pub key: u32,
}

/// Whether both say the same.
pub fn is_same_named(one: &Named, other: &Named) -> bool
    ensures { result ≡ same_named one.now other.now }
{
    one.an.number() == other.an.number() && one.key == other.key
}
