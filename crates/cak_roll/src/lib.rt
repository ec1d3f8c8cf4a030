//! From one connectivity association key to the next without a break: two groups in which the same
//! stations take part, stepped as one, and laws of their runs.
#![tactic(auto)]

mod event;
mod fault;
mod laws;
mod members;
mod noting;
mod part;
mod side;
mod told;
mod twin;

pub use event::{GroupNumber, TwinEvent};
pub use fault::{SecondFault, TwinError};
pub use laws::{
    law_a_send_is_refused_only_in_silence, law_an_unstopped_twin_event_is_a_step,
    law_each_packet_number_is_used_once_over_both, law_group_runs_are_sound,
    law_what_holds_in_each_group,
};
pub use told::{Told, TwinFacts};
pub use twin::Twin;
