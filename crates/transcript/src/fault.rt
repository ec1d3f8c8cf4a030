//! Why a line is not read back.

ghost use Rattle.std.specs.Prelude.{◌≡◌};
ghost use Rattle.transcript.specs.declared.fault.FactError.TheVariants.{Memory};

use std::alloc::AllocError;
use thiserror::Error;

/// Why a line is not read back as a fact: it is refused, or memory ran out.
#[derive(Clone, Copy, Debug, PartialEq, Eq, Error)]
pub enum FactError {
    /// The line is that of no fact. There is no other refusal.
    #[error("the line is no line of a transcript")]
    Unread,
    /// Memory ran out, which says nothing of the line.
    #[error("out of memory")]
    Memory,
}

impl From<AllocError> for FactError {
    ghost from_gives = { λ _ fault. fault ≡ Memory };

    fn from(_: AllocError) -> Self {
        FactError::Memory
    }
}
