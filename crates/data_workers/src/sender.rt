//! What a worker protects, and for whom.

use lan_base::{Sci, UserFrame};

/// The place of a station, the SCI that it sends under, and the frame of one of its users.
#[derive(Debug, Drop)]
pub struct Sender {
    pub station: u8,
    pub sci: Sci,
    pub user: UserFrame,
}
