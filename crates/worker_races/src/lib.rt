//! Races of workers with control: what whoever ran one knows is all that the merged list asks.
#![tactic(auto)]

mod laws;
pub mod merge;

pub use laws::{
    law_a_race_of_workers_is_a_race, law_an_event_tells_the_words, law_cards_of_a_race_are_right,
    law_cards_stay_right, law_control_goes_on, law_few_numbers_of_a_race_are_unused,
    law_frames_of_a_race_are_protected, law_new_words_owe_no_card,
    law_no_log_of_a_race_is_exhausted, law_words_catch_up_with_a_race,
};
