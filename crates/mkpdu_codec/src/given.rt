//! The key that a key server gives.

ghost use Rattle.mkpdu_codec.specs.Sets.{IsGiven};

use crate::offset::ConfidentialityOffset;
use crate::wrapped_key::WrappedKey;
use lan_base::AssociationNumber;

/// The Distributed SAK parameter set (IEEE Std 802.1X, clause 11): a key that the key server gives,
/// under its association number, with its confidentiality offset and its key number.
#[derive(Clone, Copy, Debug, PartialEq, Eq)]
pub struct Given {
    pub an: AssociationNumber,
    pub offset: ConfidentialityOffset,
    pub number: u32,
    pub key: WrappedKey,
}

/// What is given is in the ranges of its types. Nothing runs.
pub fn is_given(given: Given)
    ensures { IsGiven given }
{}
