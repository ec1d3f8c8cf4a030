//! How many facts there were of nine kinds.
#![tactic(auto)]

mod tally;

pub use tally::Tally;
