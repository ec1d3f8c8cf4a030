//! Why a line of a transcript is refused.

ghost use Rattle.std.specs.Prelude.{◌≡◌};
ghost use Rattle.transcript.specs.declared.fault.FactError.TheVariants as facts;
ghost use Rattle.transcript_check.specs.Judged.{error_of_reading, error_of_taking};
ghost use Rattle.transcript_check.specs.declared.fault.CheckError.TheVariants.{Refused, Memory};

use std::alloc::{AllocError, AllocFailed};
use thiserror::Error;
use transcript::FactError;
use transcript_reader::TakeError;

/// Why a line is refused: the first of these that holds.
#[derive(Clone, Copy, Debug, PartialEq, Eq, Error)]
pub enum CheckFault {
    /// The line is that of no fact.
    #[error("the line is no line of a transcript")]
    Unread,
    /// The line installs a key under an epoch under which its station installed one before.
    #[error("the epoch has a key")]
    Doubled,
    /// The line claims a packet number under an epoch under which its station installed no key
    /// before.
    #[error("the epoch has no key")]
    Orphan,
}

/// Why a line is not taken: it is refused, or memory ran out.
#[derive(Clone, Copy, Debug, PartialEq, Eq, Error)]
pub enum CheckError {
    #[error("{0}")]
    Refused(CheckFault),
    /// Memory ran out, which says nothing of the line.
    #[error("out of memory")]
    Memory,
}

impl From<CheckFault> for CheckError {
    ghost from_gives = { λ fault error. error ≡ Refused fault };

    fn from(fault: CheckFault) -> Self {
        CheckError::Refused(fault)
    }
}

impl From<AllocError> for CheckError {
    ghost from_gives = { λ _ error. error ≡ Memory };

    fn from(_: AllocError) -> Self {
        CheckError::Memory
    }
}

impl From<FactError> for CheckError {
    ghost from_gives = { λ fault error. error ≡ error_of_reading fault };

    fn from(fault: FactError) -> Self {
        match fault {
            FactError::Unread => CheckError::Refused(CheckFault::Unread),
            FactError::Memory => CheckError::Memory,
        }
    }
}

impl From<CheckError> for TakeError<CheckFault> {
    ghost from_gives = { λ error taken. taken ≡ error_of_taking error };

    fn from(error: CheckError) -> Self {
        match error {
            CheckError::Refused(why) => TakeError::Refused(why),
            CheckError::Memory => TakeError::Memory,
        }
    }
}
