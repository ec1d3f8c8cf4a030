//! Why a line is not read.

ghost use Rattle.std.specs.Prelude.{◌≡◌};
ghost use Rattle.trace_text.specs.declared.fault.LineError.TheVariants.{Refused, Memory};

use std::alloc::AllocError;
use thiserror::Error;

/// Why a line is refused: the first of these that applies, `Hex` and `Range` word by word from the
/// left.
#[derive(Clone, Copy, Debug, PartialEq, Eq, Error)]
pub enum TextFault {
    /// The line has more than 4,096 octets.
    #[error("the line is longer than 4096 octets")]
    TooLong,
    /// No form begins with this word, or with `draws` and this second word.
    #[error("no line begins with this word")]
    Word,
    /// The form has another count of words.
    #[error("the line has too few words or too many")]
    Count,
    /// A hexadecimal word has another digit, an odd count of digits or a length that isn't allowed.
    #[error("a word is not the hexadecimal octets that its place asks for")]
    Hex,
    /// A word is no name, no number of 1 to 10 digits, or a number out of its range.
    #[error("a word is not the name or the number that its place asks for")]
    Range,
}

/// Why a line is not read: it is refused, or memory ran out, which says nothing of the line.
#[derive(Clone, Copy, Debug, PartialEq, Eq, Error)]
pub enum LineError {
    #[error("{0}")]
    Refused(TextFault),
    #[error("out of memory")]
    Memory,
}

impl From<TextFault> for LineError {
    ghost from_gives = { λ fault error. error ≡ Refused fault };

    fn from(fault: TextFault) -> Self {
        LineError::Refused(fault)
    }
}

impl From<AllocError> for LineError {
    ghost from_gives = { λ _ error. error ≡ Memory };

    fn from(_: AllocError) -> Self {
        LineError::Memory
    }
}
