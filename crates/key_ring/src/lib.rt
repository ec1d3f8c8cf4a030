//! The key text before a capture: its groups, and the keys that are set by hand.
#![tactic(auto)]

mod laws;
mod ring;

pub use laws::law_groups_are_keyed;
pub use ring::{HandKey, KeyRing, RingEnd};
