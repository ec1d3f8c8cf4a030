//! Election of a group's key server (IEEE Std 802.1X, clause 9).
#![tactic(auto)]

mod candidate;
mod election;
mod laws;

pub use candidate::{Candidate, NEVER};
pub use election::elect;
pub use laws::{law_least, law_never_serves, law_none, law_order};
