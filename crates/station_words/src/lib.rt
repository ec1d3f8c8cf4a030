//! The transmit associations of the stations in slot words: they are moved after the facts of a
//! run, show the next packet numbers, give numbers to claims, and seats to workers that claim
//! beside.
#![tactic(auto)]

mod control;
mod controls;
mod following;
mod laws;

pub use control::TransmitControl;
pub use controls::Controls;
pub use laws::{
    law_all_words_keep_up, law_all_words_stay_caught_up, law_all_words_stay_tied,
    law_caught_up_words_keep_up, law_claims_stand_beside, law_each_number_is_claimed_once,
    law_few_claims_spend_no_words, law_looked_words_keep_a_run_thrifty, law_new_words_are_tied,
    law_the_words_are_not_behind, law_the_words_show_what_transmits, law_words_are_little_ahead,
    law_words_catch_up, law_words_keep_a_run_thrifty, law_words_that_tell_keep_up,
};
