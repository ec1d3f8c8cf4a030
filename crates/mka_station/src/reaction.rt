//! What a station does in one event.

use crate::verdict::Verdict;
use lan_base::{Mi, Octets};
use sak_exchange::Changes;

/// What a station does in one event, in this order.
#[derive(Drop)]
pub struct Reaction {
    /// What became of the frame that was heard, if one was.
    pub heard: Option<Verdict>,
    /// The server that it elects from now on, if that changed: none, or a member.
    pub server: Option<Option<Mi>>,
    /// What changed in its keys.
    pub changes: Changes,
    /// The frame that it sent, if it announced itself.
    pub sent: Option<Octets>,
}
