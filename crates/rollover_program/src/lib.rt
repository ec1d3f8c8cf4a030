//! The program `rollover` as a library: the command words, a source and a sink go in, and a status
//! comes out.
#![tactic(auto)]

mod commands;
mod files;
mod joined;
mod key_text;
mod laws;
mod status;
mod top;
mod words;

pub use audit_report::Breach;
pub use capture_file::CaptureFault;
pub use capture_packets::CaptureFault as PacketFault;
pub use files::{Files, files_of};
pub use joined::Joined;
pub use lan_core::Which;
pub use laws::{
    law_each_text_is_promised, law_tidy_runs_are_promised,
    law_tidy_worlds_of_two_groups_are_promised,
};
pub use replay::AnyGate;
pub use status::Status;
pub use top::rollover;
pub use trace_acts::Kind;
pub use trace_text::TextFault;
pub use transcript_capture::LineFault;
pub use transcript_check::CheckFault;
