//! A trace is performed line by line: each line is read, judged and performed, and what its events
//! show is told to a recorder, that of each before the next one happens.
#![tactic(auto)]

mod batches;
mod commands;
mod deed;
mod frames;
mod keeping;
mod laws;
mod moves;
mod phase;
mod places;
mod race;
mod recorder;
mod refusals;
mod stage;
mod steering;
mod weaving;
mod words;

pub use commands::Replay;
pub use laws::{
    law_acts_stop_for_their_own_reasons, law_control_was_told_what_the_run_claims,
    law_lines_leave_a_tidy_world, law_no_claim_is_exhausted, law_no_key_is_exhausted,
    law_the_words_show_the_core,
};
pub use recorder::{Preparing, Recorder};
