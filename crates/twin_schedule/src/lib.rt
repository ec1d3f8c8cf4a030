//! A trace of two groups is performed line by line: each line is read, judged and performed, and what
//! its events show in each group is told to a recorder, that of each before the next one happens.
#![tactic(auto)]

mod choosing;
mod commands;
mod laws;
mod moves;
mod party;
mod recorder;
mod refusals;
mod stage;
mod telling;

pub use commands::TwinReplay;
pub use laws::{
    law_acts_stop_for_their_own_reasons, law_both_groups_of_tidy_worlds_are_sound,
    law_groups_of_tidy_worlds_are_sound,
};
pub use recorder::TwinRecorder;
