//! The wrapping of keys by AES (RFC 3394).
#![tactic(auto)]

mod laws;
mod state;
mod wrapping;

pub use laws::law_one_key_for_one_wrap;
pub use wrapping::{unwrap, unwrap256, wrap, wrap256};
