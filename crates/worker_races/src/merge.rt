//! Races: the events of control and the claims of workers, merged into one run.

mod laws;
mod logs;
mod merging;
mod rank;
mod step;
mod taking;

pub use laws::{
    law_a_race_is_legal, law_a_race_is_thrifty, law_a_race_is_woven, law_a_race_rises,
    law_a_step_is_given, law_an_event_tells_the_word, law_an_unpoint_and_a_point_replace,
    law_control_is_raced, law_facts_tell_what_they_move, law_places_rise_along_a_log,
    law_what_control_performed, law_words_place_the_logs,
};
pub use logs::{law_frames_of_a_woven_part_are_protected, law_logs_of_workers_fit_a_race};
pub use merging::merge;
pub use step::Step;
pub use taking::taken_frames;
