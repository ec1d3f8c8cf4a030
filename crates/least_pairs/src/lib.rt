//! The least pair of two tellings of one key that do not agree: what a verdict on a transcript or on
//! a capture names.
#![tactic(auto)]

mod laws;

pub use laws::{law_a_front_stays_broken, law_a_repetition_changes_no_pair, law_one_verdict};
