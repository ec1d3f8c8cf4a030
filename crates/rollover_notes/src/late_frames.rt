//! How many fresh frames of one key and sender came late.

ghost use Rattle.std.specs.Prelude.{◌≡◌};
ghost use Rattle.rollover_notes.specs.Counted.{none_late, with_late};

use crate::counts::{first_of, more};

/// How many fresh frames came late, and the packet of the first one, 0 for none.
#[derive(Clone, Copy, Debug, PartialEq, Eq)]
pub struct LateFrames {
    pub frames: u32,
    pub first: u32,
}

impl LateFrames {
    /// No frame.
    pub(crate) fn none() -> LateFrames
        ensures { result ≡ none_late }
    {
        LateFrames {
            frames: 0,
            first: 0,
        }
    }

    /// A frame more.
    pub(crate) fn with(self, packet: u32) -> LateFrames
        ensures { result ≡ with_late packet self }
    {
        LateFrames {
            frames: more(self.frames),
            first: first_of(self.frames, self.first, packet),
        }
    }
}
