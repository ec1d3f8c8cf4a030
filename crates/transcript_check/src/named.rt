//! What an install says of an identifier.

ghost use Rattle.std.specs.Prelude.{◌≡◌};
ghost use Rattle.aes_block.specs.Secrets.{same_secret};
ghost use Rattle.transcript_check.specs.Judged.{same_named};

use aes_block::Secret;
use lan_base::AssociationNumber;

/// The first install of an identifier: the number of its line, what it says, and the station and the
/// epoch under which its SAK is found.
#[derive(Clone, Copy)]
pub struct First {
    pub number: u64,
    pub epoch: u32,
    pub station: u8,
    pub an: AssociationNumber,
}

/// The association number and the SAK of a key, which its identifier names.
#[derive(Clone, Copy)]
pub struct Named {
    pub an: AssociationNumber,
    pub sak: Secret,
}

impl Named {
    /// Whether both say the same.
    pub fn is_same(&self, other: &Named) -> bool
        ensures { result ≡ same_named self.now other.now }
    {
        self.an.number() == other.an.number() && is_same_secret(&self.sak, &other.sak)
    }
}

/// Whether both are of the same length and have the same octets.
fn is_same_secret(one: &Secret, other: &Secret) -> bool
    ensures { result ≡ same_secret one.now other.now }
{
    match (one, other) {
        (Secret::S128(a), Secret::S128(b)) => *a == *b,
        (Secret::S256(a), Secret::S256(b)) => *a == *b,
        _ => false,
    }
}
