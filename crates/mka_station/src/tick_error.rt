//! Why a tick isn't done.

ghost use Rattle.std.specs.Prelude.{◌≡◌};
ghost use Rattle.mka_station.specs.declared.tick_error.TickError.TheVariants.{Memory};

use std::alloc::AllocError;
use thiserror::Error;

/// Why a tick isn't done. It then changes nothing.
#[derive(Clone, Copy, Debug, PartialEq, Eq, Error)]
pub enum TickError {
    /// A key is made, and the supply has fewer draws left than it takes.
    #[error("no draws are left for a key")]
    DrawsSpent,
    #[error("out of memory")]
    Memory,
}

impl From<AllocError> for TickError {
    ghost from_gives = { λ _ error. error ≡ Memory };

    fn from(_: AllocError) -> Self {
        TickError::Memory
    }
}
