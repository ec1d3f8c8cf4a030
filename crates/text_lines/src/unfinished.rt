//! Why what was read was not taken and written to its end.

ghost use Rattle.std.specs.Prelude.{◌≡◌};
ghost use Rattle.text_lines.specs.declared.unfinished.Unfinished.TheVariants as unfinished;
ghost use Rattle.text_lines.specs.Ends.{unfinished_by};

use crate::reading::End;
use std::alloc::AllocError;

/// Why what was read was not taken to its end, and written, where it is written.
#[derive(Drop)]
pub enum Unfinished<F: Drop> {
    /// What begins here is refused: the line of a text with this number, from 1, or what stands at this
    /// octet of a file.
    Refused { at: u32, why: F },
    /// Memory ran out.
    Memory,
    /// The source failed.
    ReadFault,
    /// The sink failed.
    WriteFault,
    /// An octet past the limit was taken.
    Limit,
}

impl<F: Drop> From<AllocError> for Unfinished<F> {
    ghost from_gives = { λ _ why. why ≡ unfinished.Memory };

    fn from(_: AllocError) -> Self {
        Unfinished::Memory
    }
}

impl<F: Drop> From<End<(u32, F)>> for Unfinished<F> {
    ghost from_gives = { λ end why. why ≡ unfinished_by end };

    fn from(end: End<(u32, F)>) -> Self {
        match end {
            End::Refused((at, why)) => Unfinished::Refused { at, why },
            End::Memory => Unfinished::Memory,
            End::ReadFault => Unfinished::ReadFault,
            End::Limit => Unfinished::Limit,
        }
    }
}
