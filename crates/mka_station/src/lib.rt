//! One station of a group (IEEE Std 802.1X, clause 9): it hears frames of key agreement, elects a
//! key server, takes and makes keys, and announces itself. Its reactions are functions of the
//! history of its life.
//!
//! Read first `Station`, whose calls are `tick`, `hear` and `restart`, and the `Reaction` that each
//! answers; in `specs/`, `Lives` has the history, and `Tick` and `Hearing` what follows from it.
#![tactic(auto)]

mod changes;
mod config;
mod judging;
mod laws;
mod next;
mod peer_view;
mod reaction;
mod rows;
mod saying;
mod shown;
mod station;
mod telling;
mod tick_error;
mod verdict;

pub use config::Config;
pub use judging::judge;
pub use laws::{
    law_dropped_changes_no_answer, law_dropped_changes_no_view, law_elected_stays,
    law_flags_the_server, law_listed_was_heard, law_marks_what_transmits, law_no_flag_is_heard,
    law_room, law_turns_count, law_uses_show_the_keys,
};
pub use reaction::Reaction;
pub use station::{Station, mi_of};
pub use tick_error::TickError;
pub use verdict::{DropReason, Verdict};
