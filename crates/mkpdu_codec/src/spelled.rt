//! What is read of a frame.

use crate::announcement::Announcement;

/// What a frame spells: the announcement, how many octets of the frame its check value covers, and
/// the check value.
#[derive(Debug, Drop, PartialEq)]
pub struct Spelled {
    pub announcement: Announcement,
    pub covered: usize,
    pub check: [u8; 16],
}
