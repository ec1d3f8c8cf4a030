//! What a frame is behind the ones before it.

ghost use Rattle.std.specs.Prelude.{◌≡◌};
ghost use Rattle.use_notes.specs.Frames.{novelty_after, is_new, is_repeated, is_reused, is_fresh};
ghost use Rattle.use_notes.specs.Once.{reuse_by};

use crate::frame::First;

/// What a right frame is behind the right ones before it of its key and sender.
#[derive(Clone, Copy, Debug, PartialEq, Eq)]
pub enum Novelty {
    /// None of them has its packet number.
    New,
    /// One of them has its packet number and its check value.
    Repeated {
        /// The packet of the first such one.
        first: u32,
    },
    /// Each one of them with its packet number has another check value.
    Reused {
        /// The packet of the first one with its number.
        first: u32,
    },
}

impl Novelty {
    /// Whether no frame before it has its packet number.
    pub fn is_new(&self) -> bool
        ensures { result ≡ is_new self.now }
    {
        matches!(self, Novelty::New)
    }

    /// Whether it is new or reused.
    pub fn is_fresh(&self) -> bool
        ensures { result ≡ is_fresh self.now }
    {
        !matches!(self, Novelty::Repeated { .. })
    }

    /// Whether it repeats an earlier frame.
    pub fn is_repeated(&self) -> bool
        ensures { result ≡ is_repeated self.now }
    {
        matches!(self, Novelty::Repeated { .. })
    }

    /// Whether it uses the packet number of an earlier frame again.
    pub fn is_reused(&self) -> bool
        ensures { result ≡ is_reused self.now }
    {
        matches!(self, Novelty::Reused { .. })
    }

    /// What a frame is behind the first one with its packet number, and the first one that has its check
    /// value, too, if there are such.
    pub(crate) fn after(first: Option<First>, alike: Option<First>) -> Novelty
        ensures { result ≡ novelty_after first alike }
    {
        match (first, alike) {
            (None, _) => Novelty::New,
            (Some(first), None) => Novelty::Reused {
                first: first.packet,
            },
            (Some(_), Some(alike)) => Novelty::Repeated {
                first: alike.packet,
            },
        }
    }

    /// The pair that a frame of this packet breaks, if it is reused.
    pub(crate) fn reuse_by(&self, packet: u32) -> Option<(u32, u32)>
        ensures { result ≡ reuse_by packet self.now }
    {
        match self {
            Novelty::Reused { first } => Some((*first, packet)),
            _ => None,
        }
    }
}
