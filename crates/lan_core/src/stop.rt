//! Why a group goes no further.

ghost use Rattle.std.specs.Prelude.{◌≡◌};
ghost use Rattle.lan_core.specs.declared.stop.StepError.TheVariants.{Memory, Stopped};
ghost use Rattle.lan_core.specs.inside.Faults.{error_of_fault};

use mka_station::TickError;
use std::alloc::AllocError;
use thiserror::Error;

/// A limit of the profile, in the order in which they are judged.
#[derive(Clone, Copy, Debug, PartialEq, Eq)]
pub enum Which {
    /// Frames on the air.
    Frames,
    /// Octets on the air.
    Octets,
    /// Ticks.
    Ticks,
    /// Installs at one station.
    Keys,
    /// Stations.
    Stations,
}

/// Why a group goes no further: the first of these that holds.
#[derive(Clone, Copy, Debug, PartialEq, Eq, Error)]
pub enum Stop {
    /// An event needs more draws than the supply has left.
    #[error("no draws are left")]
    DrawsSpent,
    /// An event would pass a limit.
    #[error("a limit is reached")]
    Limit(Which),
    /// Two member identifiers that were drawn are equal, or two keys. Draws are numbered from 1,
    /// and a key of two draws has the number of its first.
    #[error("draws {first} and {second} repeat")]
    RepeatedDraw { first: u64, second: u64 },
    /// Foreign octets that reached the station have the group's name and a right check value, and
    /// repeat no frame on the air.
    #[error("forged")]
    Forged { station: u8 },
}

/// Why a step fails: its event meets a stop, or memory ran out.
#[derive(Clone, Copy, Debug, PartialEq, Eq, Error)]
pub enum StepError {
    #[error("{0}")]
    Stopped(Stop),
    #[error("out of memory")]
    Memory,
}

impl From<Stop> for StepError {
    ghost from_gives = { λ stop error. error ≡ Stopped stop };

    fn from(stop: Stop) -> Self {
        StepError::Stopped(stop)
    }
}

impl From<AllocError> for StepError {
    ghost from_gives = { λ _ error. error ≡ Memory };

    fn from(_: AllocError) -> Self {
        StepError::Memory
    }
}

impl From<TickError> for StepError {
    ghost from_gives = { λ fault error. error ≡ error_of_fault fault };

    fn from(fault: TickError) -> Self {
        match fault {
            TickError::DrawsSpent => StepError::Stopped(Stop::DrawsSpent),
            TickError::Memory => StepError::Memory,
        }
    }
}
