//! The group as a whole: its events, the facts that each event shows, and what a legal run of them
//! is.
//!
//! Read first `Lan`, which has a call for each `Event` and answers the `Facts` that it shows, or a
//! `Stop`; in `specs/`, `Run`, `Lives`, `Expected` for what an event shows, and `Legal`.
#![tactic(auto)]

mod air;
mod checks;
mod claimed;
mod draw_laws;
mod drawn;
mod event;
mod event_facts;
mod fact;
mod fact_laws;
mod following;
mod judge;
mod lan;
mod laws;
mod limits;
mod names;
mod parts;
mod seat;
mod seats;
mod sender;
mod settings;
mod stop;
mod telling;
mod waiting;

pub use draw_laws::{
    law_a_restart_passes_no_limit, law_a_step_stays_fresh_beside_another_run,
    law_a_tick_draws_one_key_or_nothing, law_only_needed_draws_count, law_what_an_event_draws,
    law_what_is_noted_is_drawn,
};
pub use drawn::Drawn;
pub use event::Event;
pub use fact::{Fact, Facts, Lack};
pub use fact_laws::{
    law_epochs_count, law_facts_have_their_stations, law_stations_have_their_names,
};
pub use lan::Lan;
pub use laws::{
    law_a_claimed_number_is_passed, law_a_shown_number_is_kept, law_a_step_keeps_a_run_legal,
    law_an_excused_run_stays_excused, law_an_unstopped_event_is_a_step,
    law_an_unstopped_event_keeps_a_run_sound, law_claims_and_emissions_change_no_life,
    law_each_number_has_its_frame, law_each_station_is_in_a_life,
    law_events_of_others_change_no_life, law_frames_are_numbered_in_order,
    law_fronts_of_fresh_runs_are_fresh, law_fronts_of_stepped_runs_are_stepped,
    law_fronts_of_unforged_runs_are_unforged, law_more_users_change_no_run,
    law_next_numbers_keep_a_run_thrifty, law_the_next_number_never_falls,
    law_what_was_checked_stays_checked,
};
pub use limits::{INSTALLS_MAX, OCTETS_MAX, STATIONS_MAX, law_limits};
pub use parts::law_claims_tell_packet_numbers_alone;
pub use settings::Settings;
pub use stop::{StepError, Stop, Which};
