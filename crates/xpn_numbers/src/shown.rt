//! What a member shows of high halves.

use lan_base::KeyId;

/// The high half of the lowest acceptable packet number that a member shows beside an identifier.
#[derive(Clone, Copy, Debug, PartialEq, Eq)]
pub struct ShownHigh {
    pub id: KeyId,
    pub high: u32,
}

/// What an MKPDU shows of high halves: beside the latest key and the old one, where it shows them with
/// tx or rx and has both halves (the XPN parameter set, IEEE Std 802.1X, clause 11).
#[derive(Clone, Copy, Debug, PartialEq, Eq)]
pub struct ShownHighs {
    pub latest: Option<ShownHigh>,
    pub old: Option<ShownHigh>,
}

/// What a member said last, and when, in nanoseconds.
#[derive(Clone, Copy, Debug, PartialEq, Eq)]
pub struct Said {
    pub nanos: u64,
    pub shown: ShownHighs,
}
