//! Batches of received frames, whose checks are shared out among threads.
#![tactic(auto)]

mod batch;

pub use batch::{Batch, check_batch, is_worth_threads};
