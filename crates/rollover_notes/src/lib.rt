//! What is kept of a rollover in a capture: which members reported and began which keys, and which
//! fresh frames came to a member too early or too late.
#![tactic(auto)]

mod counts;
mod givings;
mod late_frames;
mod notes;
mod putting;
mod report;
mod reports;
mod saying;
mod speakers;
mod timing;
mod unready;
mod walk;

pub use late_frames::LateFrames;
pub use notes::RolloverNotes;
pub use report::Report;
pub use timing::Timing;
pub use unready::Unready;
