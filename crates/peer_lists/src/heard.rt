//! What an announcement tells the peer lists, and what they answer.

use lan_base::{Mi, Sci};
use mkpdu_codec::Uses;

/// What an announcement tells the peer lists of its announcer.
#[derive(Clone, Copy)]
pub struct Heard {
    pub mi: Mi,
    pub sci: Sci,
    pub priority: u8,
    pub mn: u32,
    /// Whether one of its two lists names the hearer.
    pub lists: bool,
    /// The message number under which they name the hearer: where they do so more than once, the
    /// first one that is recent, else the first.
    pub listed: u32,
    pub uses: Option<Uses>,
}

/// Why a heard announcement is dropped: the first of these that holds.
#[derive(Clone, Copy, Debug, PartialEq, Eq)]
pub enum PeerRefusal {
    /// Its member identifier or its SCI is the hearer's own.
    Echo,
    /// The last accepted announcement of its member is younger than the life time and has the
    /// number `kept`, which is not less than its own.
    OldNumber { kept: u32 },
    /// As many other members as are remembered have an accepted announcement younger than the life
    /// time, and its own has none.
    PeersFull,
}

/// What hearing an announcement comes to.
#[derive(Clone, Copy, Debug, PartialEq, Eq)]
pub enum Outcome {
    /// Accepted, and it lists the hearer under a number that the hearer sent less than the life
    /// time ago.
    Vouched,
    /// Accepted only.
    Unvouched,
    /// Dropped: it changes nothing.
    Dropped(PeerRefusal),
}

/// What is shown of a member with an accepted announcement younger than the life time.
#[derive(Clone, Copy, Debug, PartialEq, Eq)]
pub struct Row {
    pub mi: Mi,
    /// The number of its last accepted announcement.
    pub mn: u32,
    /// From here on: of its last vouched announcement where it is live, else of its last accepted
    /// one.
    pub sci: Sci,
    pub priority: u8,
    pub live: bool,
    pub potential: bool,
    pub uses: Option<Uses>,
}
