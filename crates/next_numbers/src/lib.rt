//! The next packet numbers of a group's stations, where no event leaves a number out: tables of
//! them, how far they go, and the claims that wait to be put on the air.
#![tactic(auto)]

mod laws;
mod numbers;

pub use laws::{
    law_a_claim_that_got_a_number_waits, law_a_claim_that_waits_has_its_frame,
    law_an_emission_puts_a_frame_on_the_air, law_emissions_stay_in_turn,
    law_next_numbers_stay_bounded,
};
pub use numbers::{Numbers, in_range};
