//! Why a trace is not performed to its end.

ghost use Rattle.std.specs.Prelude.{◌≡◌};
ghost use Rattle.trace_acts.specs.declared.halt.Halt.TheVariants.{Memory};
ghost use Rattle.trace_acts.specs.Halts.{halt_of, halt_of_unwritten};

use lan_base::Unwritten;
use lan_core::{Stop, Which};
use std::alloc::{AllocError, AllocFailed};
use thiserror::Error;

/// Why a line is refused. The kinds are tried in this order: `TooLong`, `Word`, `Count`, then `Hex`
/// and `Range` word by word from the left, `Order`, and the last four of names and frames word by
/// word from the left; `DrawsSpent` comes while the line is performed.
#[derive(Clone, Copy, Debug, PartialEq, Eq, Error)]
pub enum Kind {
    /// No line begins with this word.
    #[error("Word")]
    Word = 1,
    /// The line has too few words or too many.
    #[error("Count")]
    Count = 2,
    /// A word is not the hexadecimal octets that its place asks for.
    #[error("Hex")]
    Hex = 3,
    /// A word is not the name or the number that its place asks for.
    #[error("Range")]
    Range = 4,
    /// No station has this name.
    #[error("NameUnknown")]
    NameUnknown = 5,
    /// A station has this name already.
    #[error("NameTaken")]
    NameTaken = 6,
    /// A station has this SCI already.
    #[error("SciTaken")]
    SciTaken = 7,
    /// The air has no frame of this number.
    #[error("FrameUnknown")]
    FrameUnknown = 8,
    /// The line is not allowed here.
    #[error("Order")]
    Order = 9,
    /// The trace ends inside a race.
    #[error("NoEnd")]
    NoEnd = 10,
    /// The line has more than 4,096 octets.
    #[error("TooLong")]
    TooLong = 11,
    /// The line needs more draws than are listed.
    #[error("DrawsSpent")]
    DrawsSpent = 12,
}

/// Why a trace is not performed to its end.
#[derive(Clone, Copy, Debug, PartialEq, Eq, Error)]
pub enum Halt {
    /// The line with this number, from 1, is refused.
    #[error("line {line}: {kind}")]
    Trace { line: u32, kind: Kind },
    #[error("out of memory")]
    Memory,
    /// The outlet of the recorder failed.
    #[error("write fault")]
    WriteFault,
    /// An event would pass a limit.
    #[error("limit {0:?}")]
    Limit(Which),
    /// Two drawn member identifiers are equal, or two drawn SAKs. Draws have numbers from 1.
    #[error("draws {first} and {second} repeat")]
    RepeatedDraw { first: u64, second: u64 },
    /// The line with this number injects a right frame that repeats none on the air.
    #[error("line {line}: forged")]
    Forged { line: u32 },
}

impl From<AllocError> for Halt {
    ghost from_gives = { λ _ halt. halt ≡ Memory };

    fn from(_: AllocError) -> Self {
        Halt::Memory
    }
}

impl<T: Drop> From<AllocFailed<T>> for Halt {
    ghost from_gives = { λ _ halt. halt ≡ Memory };

    fn from(_: AllocFailed<T>) -> Self {
        Halt::Memory
    }
}

impl From<Unwritten> for Halt {
    ghost from_gives = { λ why halt. halt ≡ halt_of_unwritten why };

    fn from(why: Unwritten) -> Self {
        match why {
            Unwritten::Failed => Halt::WriteFault,
            Unwritten::Memory => Halt::Memory,
        }
    }
}

/// Why a trace ends where its group stops, at the line of this number.
pub fn halt_of(stop: Stop, line: u32) -> Halt
    ensures { result ≡ halt_of line stop }
{
    match stop {
        Stop::DrawsSpent => Halt::Trace {
            line,
            kind: Kind::DrawsSpent,
        },
        Stop::Limit(which) => Halt::Limit(which),
        Stop::RepeatedDraw { first, second } => Halt::RepeatedDraw { first, second },
        Stop::Forged { .. } => Halt::Forged { line },
    }
}
