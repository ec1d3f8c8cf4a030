//! MKA frames (IEEE Std 802.1X, clause 11): what an announcement of key agreement says, and its
//! octets.
#![tactic(auto)]

mod announcement;
mod basic;
mod distributed_sak;
mod fields;
mod found;
mod given;
mod high_halves;
mod key_use;
mod laws;
mod layout;
mod offset;
mod peer;
mod peer_list;
mod read_error;
mod reading;
mod refusal;
mod sak_use;
mod set;
mod spelled;
mod wrapped_key;
mod writing;

pub use announcement::Announcement;
pub use given::Given;
pub use high_halves::HighHalves;
pub use key_use::{KeyUse, Uses};
pub use laws::{
    law_covered_octets_decide, law_never_both, law_octets_behind_are_ignored, law_one_spelling,
    law_read_is_spelled, law_reading_refuses, law_spelled_is_read, law_spelled_or_refused,
    law_written_is_spelled,
};
pub use layout::CHECK_LEN;
pub use offset::ConfidentialityOffset;
pub use peer::{Peer, Peers};
pub use read_error::ReadError;
pub use reading::{check_value, read};
pub use refusal::Refusal;
pub use spelled::Spelled;
pub use wrapped_key::WrappedKey;
pub use writing::{write, written_len};
