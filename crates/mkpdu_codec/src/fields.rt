//! The fields of parameter sets: a value, and the octets behind it.

ghost use Rattle.std.specs.Prelude.{◌≡◌};
ghost use Rattle.mkpdu_codec.specs.Fields.{an_in, offset_in, number_at, mi_at, sci_at};
ghost use Rattle.mkpdu_codec.specs.inside.Views.{Finds};

use crate::offset::ConfidentialityOffset;
use byteorder::{BigEndian, ByteOrder};
use lan_base::{AssociationNumber, Mi, Sci};

/// The association number in the two lowest bits.
pub fn an_of(bits: u8) -> AssociationNumber
    ensures { result ≡ an_in bits }
{
    AssociationNumber::of_bits(bits / 2 % 2 == 1, bits % 2 == 1)
}

/// The confidentiality offset in the two lowest bits.
pub fn offset_of(bits: u8) -> ConfidentialityOffset
    ensures { result ≡ offset_in bits }
{
    ConfidentialityOffset::of_bits(bits / 2 % 2 == 1, bits % 2 == 1)
}

/// Reads a number of four octets, the highest first.
#[tactic(auto, unfolding(crate::specs::Fields::number_at))]
pub fn read_number(octets: &[u8]) -> Option<(u32, &[u8])>
    ensures { Finds (λ x. (x.0, x.1.now)) result (number_at octets.now) }
{
    let (number, rest) = octets.split_at_checked(4)?;
    Some((BigEndian::read_u32(number), rest))
}

/// Reads a member identifier.
#[tactic(auto, unfolding(crate::specs::Fields::mi_at))]
pub fn read_mi(octets: &[u8]) -> Option<(Mi, &[u8])>
    ensures { Finds (λ x. (x.0, x.1.now)) result (mi_at octets.now) }
{
    let (mi, rest) = octets.split_first_chunk::<12>()?;
    Some((Mi(*mi), rest))
}

/// Reads a secure channel identifier.
#[tactic(auto, unfolding(crate::specs::Fields::sci_at))]
pub fn read_sci(octets: &[u8]) -> Option<(Sci, &[u8])>
    ensures { Finds (λ x. (x.0, x.1.now)) result (sci_at octets.now) }
{
    let (sci, rest) = octets.split_first_chunk::<8>()?;
    Some((Sci(*sci), rest))
}
