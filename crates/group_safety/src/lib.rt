//! What holds of every run of the group, and two rollovers that are worked out.
#![tactic(auto)]

mod fields;
mod hitless;
mod safety;
mod transmitting;
mod worked;

pub use fields::law_facts_are_typed;
pub use hitless::{law_hitless, law_old_key_is_received};
pub use safety::{law_drawn, law_once, law_one_key};
pub use transmitting::{
    law_a_place_without_a_station_is_blank, law_an_account_goes_on, law_an_account_goes_onward,
    law_an_installed_key_is_held, law_facts_move_what_transmits, law_next_numbers_grow_by_claims,
    law_the_next_number_is_told,
};
pub use worked::{law_late, law_missed_flag};
