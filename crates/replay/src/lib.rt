//! A trace is read from a source and performed, for its transcript or for its summary.
#![tactic(auto)]

mod ended;
mod gate;
mod player;
mod replaying;
mod transcribing;
pub mod twin;
mod unrecorded;
mod writing;

pub use gate::AnyGate;
pub use replaying::{MAX_INPUT, replay};
pub use writing::write;
