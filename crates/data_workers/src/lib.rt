//! Workers: each has jobs, and for each of them claims a packet number from a seat of its own and
//! protects its sender's frame under the card of that claim. What came of the jobs stands in its
//! log. Control may move the words meanwhile.
#![tactic(auto)]

mod entry;
mod laws;
mod log;
mod prepared;
mod rooms;
mod sender;
mod steering;
mod worker;
mod working;

pub use entry::Entry;
pub use laws::{law_a_log_counts_claims, law_a_told_log, law_told_numbers_differ};
pub use log::Log;
pub use sender::Sender;
pub use steering::Steering;
pub use worker::Worker;
pub use working::{beside, crew, work};
