//! Octets of a source within a limit, given out as many as are asked for, passed over, line by line,
//! or only looked at.
#![tactic(auto)]

mod supply;

pub use supply::{LineEnd, Supply};
