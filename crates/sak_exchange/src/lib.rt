//! Which secure association keys a station holds (IEEE Std 802.1X, clause 9): when its key server
//! makes one, who takes it, when it begins to transmit and when the old one goes, proved against
//! the history of one life of the station.
//!
//! Read first `KeyState`, above which the states of a key are drawn, and the `Changes` that its calls
//! answer; in `specs/`, `Histories`, and `Held` for which keys are held after one.
#![tactic(auto)]

mod change;
mod due;
mod held_key;
mod key_state;
mod latest;
mod laws;
mod offer;
mod report;

pub use change::{Cause, Change, Changes, Why};
pub use due::{Due, Rekey, Seen};
pub use held_key::{HeldKey, Key};
pub use key_state::KeyState;
pub use laws::{
    law_a_tick_retires, law_an_install_leaves_what_transmits, law_an_old_key_has_begun,
    law_at_most_two_are_received, law_begun_epochs_rise, law_epochs_rise, law_key_numbers_rise,
    law_received_is, law_the_latest_key_is_received, law_the_next_number_is_free,
    law_the_old_key_is_received, law_transmitting_is, law_two_keys_have_two_numbers,
    law_unwrapped_is_the_key,
};
pub use offer::Offer;
pub use report::Report;
