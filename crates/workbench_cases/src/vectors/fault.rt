//! Why a line is no vector.

use hex::FromHexError;
use std::alloc::AllocError;
use thiserror::Error;

/// Why a line is no vector, or has no answer.
#[derive(Clone, Copy, Debug, Error)]
pub enum VectorFault {
    #[error("no kind of vector has this name")]
    Kind,
    /// There are more or fewer words than vectors of the kind have.
    #[error("a vector of this kind has another number of words")]
    Words,
    #[error("a word is not of pairs of hexadecimal digits")]
    Digits,
    #[error("a word of {0} octets is wanted")]
    Length(usize),
    #[error("a word has more than 65,536 octets")]
    Long,
    #[error("a key has 16 or 32 octets")]
    Key,
    #[error("a wrap has 24 or 40 octets")]
    Wrap,
    #[error("128 or 256 bits are derived")]
    Bits,
    #[error("a word is no number of its range")]
    Number,
    #[error("the mode is confidentiality or integrity")]
    Mode,
    #[error("user data has 2 to 1,500 octets")]
    UserData,
    #[error("out of memory")]
    Memory,
}

impl From<AllocError> for VectorFault {
    fn from(_: AllocError) -> Self {
        VectorFault::Memory
    }
}

impl From<FromHexError> for VectorFault {
    fn from(error: FromHexError) -> Self {
        match error {
            FromHexError::OutOfMemory => VectorFault::Memory,
            _ => VectorFault::Digits,
        }
    }
}
