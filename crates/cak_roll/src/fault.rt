//! Why there is no second group, and why a twin goes no further.

ghost use Rattle.std.specs.Prelude.{◌≡◌};
ghost use Rattle.lan_core.specs.declared.stop.StepError.TheVariants.{Memory};
ghost use Rattle.cak_roll.specs.declared.fault.TwinError.TheVariants.{Failed};

use lan_core::StepError;
use std::alloc::AllocError;
use thiserror::Error;

/// Why a second group is refused: the first of these that holds.
#[derive(Clone, Copy, Debug, PartialEq, Eq, Error)]
pub enum SecondFault {
    /// Its CKN has no octet, or more than 32.
    #[error("the CKN must have 1 to 32 octets")]
    CknLength,
    /// Its CKN is that of the first group.
    #[error("the CKN is that of the first group")]
    SameCkn,
    /// There is a second group.
    #[error("there is a second group")]
    Twice,
}

/// Why a twin goes no further.
#[derive(Clone, Copy, Debug, PartialEq, Eq, Error)]
pub enum TwinError {
    /// A station adopts a second group that isn't there.
    #[error("there is no second group")]
    NoSecond,
    /// A group meets a stop, or memory ran out.
    #[error("{0}")]
    Failed(StepError),
}

impl From<StepError> for TwinError {
    ghost from_gives = { λ error given. given ≡ Failed error };

    fn from(error: StepError) -> Self {
        TwinError::Failed(error)
    }
}

impl From<AllocError> for TwinError {
    ghost from_gives = { λ _ given. given ≡ Failed Memory };

    fn from(_: AllocError) -> Self {
        TwinError::Failed(StepError::Memory)
    }
}
