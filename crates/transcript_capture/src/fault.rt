//! Why a fact is not recorded, and why a line is refused.

ghost use Rattle.std.specs.Prelude.{◌≡◌};
ghost use Rattle.transcript_capture.specs.inside.Recorded.{error_of_recording};

use lan_base::Unwritten;
use std::alloc::AllocError;
use thiserror::Error;
use transcript_reader::TakeError;

/// Why a fact is not recorded.
#[derive(Clone, Copy, Debug, PartialEq, Eq, Error)]
pub enum RecordError {
    /// Its frame has more octets than a record keeps.
    #[error("the frame is too long for a record")]
    TooLong,
    /// The sink failed.
    #[error("the sink failed")]
    Failed,
    #[error("out of memory")]
    Memory,
}

impl From<AllocError> for RecordError {
    ghost use Rattle.transcript_capture.specs.declared.fault.RecordError.TheVariants as errors;

    ghost from_gives = { λ _ error. error ≡ errors.Memory };

    fn from(_: AllocError) -> Self {
        RecordError::Memory
    }
}

/// Why a line of a transcript is refused.
#[derive(Clone, Copy, Debug, PartialEq, Eq, Error)]
pub enum LineFault {
    /// The line is that of no fact.
    #[error("the line is no line of a transcript")]
    Unread,
    /// Its frame has more octets than a record keeps.
    #[error("the frame is too long for a record")]
    TooLong,
}

impl From<RecordError> for TakeError<LineFault> {
    ghost from_gives = { λ error taken. taken ≡ error_of_recording error };

    fn from(error: RecordError) -> Self {
        match error {
            RecordError::TooLong => TakeError::Refused(LineFault::TooLong),
            RecordError::Failed => TakeError::Failed,
            RecordError::Memory => TakeError::Memory,
        }
    }
}
