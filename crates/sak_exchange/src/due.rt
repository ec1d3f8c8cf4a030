//! What a tick shows of the packet numbers, and what decides whether a key is made.

use crate::report::Report;

/// What a tick shows of the packet numbers.
#[derive(Clone, Copy)]
pub struct Seen {
    /// The next packet number of the association that transmits, 0 where none does.
    pub next: u64,
    /// The lowest acceptable packet number under the latest key.
    pub latest: u32,
    /// The lowest acceptable packet number under the old key.
    pub old: u32,
}

/// From where on a key is spent.
#[derive(Clone, Copy)]
pub struct Rekey {
    /// The packet number from which on it is.
    pub from: u32,
    /// Whether it is so, too, where a live member says such a number of it as its old key.
    pub as_old: bool,
}

/// What decides at a tick whether a station that is its own elected server makes a key.
#[derive(Clone, Copy)]
pub struct Due<'a> {
    /// What the live members say.
    pub live: &'a [Report],
    /// Whether a member is potential.
    pub potential: bool,
    pub seen: Seen,
    pub rekey: Rekey,
    /// Whether keys that are made give confidentiality.
    pub conf: bool,
}
