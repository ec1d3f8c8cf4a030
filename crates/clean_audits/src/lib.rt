//! What the audit of a capture says of the runs of a group.
#![tactic(auto)]

mod audit;
mod given;
mod mkpdus;

pub use audit::{law_audit_clean, law_each_run_has_a_capture, law_right_frames_are_claimed};
pub use given::law_a_key_is_given_before_it_is_used;
pub use mkpdus::law_mkpdus_are_right;
