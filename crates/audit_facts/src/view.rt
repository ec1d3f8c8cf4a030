//! What is seen of a whole capture.

use crate::facts::AuditFacts;
use audit_report::{Ending, Tally, Verdict};
use key_ring::HandKey;
use rollover_notes::Report;

/// What is seen of a capture when reading has ended: how it ended, how many packets there are of each
/// kind, what is judged and told of them, the keys that are set by hand, each with its number, what is
/// told of members and the keys that they reported, and what a picture marks.
#[derive(Drop)]
pub struct AuditView {
    pub ending: Ending,
    pub tally: Tally,
    pub verdict: Verdict,
    pub hand: Vec<(u32, HandKey)>,
    pub reports: Vec<Report>,
    pub facts: AuditFacts,
}
