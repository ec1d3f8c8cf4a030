//! The keys of a key agreement group (IEEE Std 802.1X, 9.3.3), derived by CMAC in counter mode
//! (NIST SP 800-108).
#![tactic(auto)]

mod derivation;
mod group;

pub use derivation::{derive, derive256};
pub use group::{Group, GroupError, GroupFault};
