//! For what a capture is to blame.

use thiserror::Error;

/// What breaks, by its least pair of packets.
#[derive(Clone, Copy, Debug, PartialEq, Eq, Error)]
pub enum Breach {
    /// Two protected frames share a nonce.
    #[error("packets {first} and {second} share a nonce: frame.number in {{{first},{second}}}")]
    Nonce { first: u32, second: u32 },
    /// Two MKPDUs disagree on a key.
    #[error("packets {first} and {second} disagree on a key: frame.number in {{{first},{second}}}")]
    Key { first: u32, second: u32 },
}

/// For what a capture is to blame that was judged.
#[derive(Clone, Copy, Debug, PartialEq, Eq)]
pub enum Blame {
    /// For nothing.
    None,
    /// A pair of its packets breaks what is judged.
    Refuted(Breach),
    /// No pair breaks, but protected frames are wrong or undecided, and none was to be.
    Doubted { wrong: u32, undecided: u32 },
    /// No pair breaks, and no protected frame is wrong or undecided, but none is right, and one was to be.
    NotJudged,
}
