//! Claims of packet numbers: one number of an open epoch each, with that epoch's card, by any
//! number of threads at once.
#![tactic(auto)]

mod alone;
mod answers;
mod claiming;
mod gate;

pub use alone::claim_alone;
pub use answers::{Claim, NoClaim};
pub use claiming::{claim, tell};
pub use gate::{Gate, OpenGate, Point};
