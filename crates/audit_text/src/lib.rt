//! The key text before a capture, line by line: where it ends, and what each of its three lines says.
#![tactic(auto)]

mod forms;
mod laws;
mod line;
mod parting;
mod reading;

pub use laws::{law_parted, law_read_or_refused};
pub use line::{KeyLine, Sender};
pub use parting::{Part, next_part};
pub use reading::read_key_line;
