//! A file of captured packets is read from a source, packet by packet, and each is told in one line
//! before the next is read.
#![tactic(auto)]

mod reader;
mod telling;

pub use telling::dissect;
