//! Why a frame is not read.

use thiserror::Error;

/// Why a frame spells no announcement: the first of these that applies, from the front.
#[derive(Clone, Copy, Debug, PartialEq, Eq, Error)]
pub enum Refusal {
    /// Not a frame of key agreement: too short for a header, another EtherType or packet type, or
    /// no group address as destination.
    #[error("not a frame of MACsec Key Agreement")]
    NotMka,
    /// The length of the body is below 32, no multiple of four, or more than the frame has.
    #[error("the body's length does not fit the frame")]
    Short,
    /// The parameter set that starts at this octet of the frame doesn't have its form.
    #[error("the parameter set at octet {at} doesn't have its form")]
    Shape { at: usize },
    /// There is a second set of this type.
    #[error("there is a second parameter set of type {kind}")]
    Repeated { kind: u8 },
    /// The algorithm agility is not the one that there is.
    #[error("the algorithm agility is unknown")]
    Agility,
}
