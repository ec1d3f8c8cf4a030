//! Authenticated encryption by GCM with an IV of 96 bits and a tag of 16 octets (SP 800-38D,
//! section 7), under a key that is prepared once. No place in memory is chosen by a key or a text.
#![tactic(auto)]

mod counter;
mod gcm_key;
mod hash;
mod hash_key;
mod hash_rows;
mod sealing;
mod wide_block;

pub use gcm_key::GcmKey;
pub use sealing::{is_sealed, seal, unseal};
