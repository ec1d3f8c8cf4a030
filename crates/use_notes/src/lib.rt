//! What is kept of the frames of a capture that are right under a key: whether a packet number was
//! used twice, and what is told of each key and sender.
#![tactic(auto)]

pub mod changes;
mod counts;
mod frame;
mod laws;
mod notes;
mod novelty;
mod order;
mod sender;

pub use counts::Counts;
pub use frame::RightFrame;
pub use laws::{
    law_a_front_stays_broken, law_a_repetition_changes_no_pair,
    law_the_first_reuse_is_the_least_pair, law_the_window_is_the_least,
};
pub use notes::{Use, UseNotes};
pub use novelty::Novelty;
pub use order::Order;
