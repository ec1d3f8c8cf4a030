//! Protected frames of MACsec (IEEE Std 802.1AE, clauses 9 and 14): their octets under one key of
//! GCM-AES, written and opened without taking memory.
#![tactic(auto)]

mod laws;
mod protecting;
mod tag;
mod tagging;
mod validating;

pub use laws::{
    law_no_frame_is_both, law_opened_is_sealed, law_protected_is_longer, law_protected_is_opened,
    law_protected_is_read, law_protection_octets, law_sealed_without_offset,
};
pub use protecting::{PROTECTION_OCTETS, iv_of, protect, xpn_iv_of};
pub use tag::{Tag, TagRefusal};
pub use tagging::{implied_tag_of, is_sec, tag_of};
pub use validating::{is_sealed, is_sealed_with, validate, validate_with};
