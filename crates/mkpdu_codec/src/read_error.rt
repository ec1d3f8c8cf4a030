//! Why a frame gave no answer.

ghost use Rattle.std.specs.Prelude.{◌≡◌};
ghost use Rattle.mkpdu_codec.specs.declared.read_error.ReadError.TheVariants as errors;

use crate::refusal::Refusal;
use std::alloc::AllocError;
use thiserror::Error;

/// Why reading a frame gave no announcement.
#[derive(Clone, Copy, Debug, PartialEq, Eq, Error)]
pub enum ReadError {
    /// The frame spells none.
    #[error("{0}")]
    Refused(Refusal),
    /// Memory ran out, which says nothing of the frame.
    #[error("out of memory")]
    Memory,
}

impl From<Refusal> for ReadError {
    ghost from_gives = { λ refusal e. e ≡ errors.Refused refusal };

    fn from(refusal: Refusal) -> ReadError {
        ReadError::Refused(refusal)
    }
}

impl From<AllocError> for ReadError {
    ghost from_gives = { λ _ e. e ≡ errors.Memory };

    fn from(_e: AllocError) -> ReadError {
        ReadError::Memory
    }
}
