//! From a source to the lines of a text within a limit: each line is handed to whoever takes lines
//! before the next octets are asked for.
#![tactic(auto)]

mod feeding;
mod laws;
mod reading;
mod taker;
mod unfinished;

pub use laws::law_lines_are_few;
pub use reading::{End, read_lines};
pub use taker::LineTaker;
pub use unfinished::Unfinished;
