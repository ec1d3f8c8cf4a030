//! From a transcript to a file of captured packets: each frame that was put on the air is recorded as
//! soon as its line is read.
#![tactic(auto)]

mod capturing;
mod clock;
mod fault;
mod laws;
mod recorder;
mod recording;

pub use capturing::capture;
pub use clock::Clock;
pub use fault::{LineFault, RecordError};
pub use laws::law_frames_are_packets;
pub use recording::Recording;
