//! What marks a capture: which packet gave each key first, and which packets of a sender used a packet
//! number again, in few columns of packets.
#![tactic(auto)]

mod giving;
mod notes;
mod reuse;

pub use giving::Giving;
pub use notes::MarkNotes;
pub use reuse::Reuse;
