//! The receive side of a secure entity (IEEE Std 802.1AE, clause 10): the answer to each frame
//! under the keys that stand, proved against the history of what was installed, removed and heard.
#![tactic(auto)]

mod arrival;
mod laws;
mod slot;
mod slots;

pub use arrival::{Arrival, Checked};
pub use laws::{
    law_lowest_is_a_senders, law_lowest_is_no_less_than_a_senders, law_nothing_is_accepted_twice,
};
pub use slots::RxSlots;
