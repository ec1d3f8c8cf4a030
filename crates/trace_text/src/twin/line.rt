//! The lines of a trace of two groups.

use crate::Line;
use lan_base::{Name, Octets};

/// One line of a trace of two groups.
#[derive(Drop)]
pub enum RollLine {
    /// A line that a trace of one group has too.
    Plain(Line),
    /// `group2 CAK CKN`: the second group.
    Group2 { cak: Octets, ckn: Octets },
    /// `adopt NAME`: a station takes part in the second group from now on.
    Adopt { name: Name },
    /// `leave G NAME`: a station takes part in a group no more.
    Leave { group: u32, name: Name },
}
