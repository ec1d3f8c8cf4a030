//! A trace of two groups is read from a source and performed, for its transcript.

mod player;
mod replaying;
mod transcribing;

pub use replaying::replay_two;
