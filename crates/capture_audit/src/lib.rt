//! A capture of a protected LAN is judged with its keys: whether a packet number was used twice under
//! a key, and whether an identifier of a key named two.
#![tactic(auto)]

mod asks;
mod auditing;
mod auditor;
mod batch;
mod end;
mod hand;
mod handing;
mod laws;
mod reading;
mod report;
mod viewing;

pub use asks::Asks;
pub use auditing::audit;
pub use end::AuditEnd;
pub use laws::{
    law_a_front_is_told_first, law_a_group_without_frames_changes_nothing,
    law_a_repetition_changes_no_verdict, law_the_format_says_nothing, law_the_least_pair_is_named,
};
pub use viewing::{end_of_view, view_audit};
