//! What hearing a frame comes to.

use mkpdu_codec::Refusal;
use peer_lists::PeerRefusal;

/// What hearing a frame comes to.
#[derive(Clone, Copy, Debug, PartialEq, Eq)]
pub enum Verdict {
    /// Accepted, and it lists the station under a message number that it sent less than the life
    /// time ago.
    Vouched,
    /// Accepted only.
    Unvouched,
    /// Dropped: it changes no answer.
    Dropped(DropReason),
}

/// Why a heard frame is dropped: the first of these that holds.
#[derive(Clone, Copy, Debug, PartialEq, Eq)]
pub enum DropReason {
    /// It spells no announcement, for this reason.
    Unspelled(Refusal),
    /// Another connectivity association key name than the group's.
    CkName,
    /// The check value is wrong.
    Check,
    /// The peer lists refuse it, for this reason.
    Refused(PeerRefusal),
}
