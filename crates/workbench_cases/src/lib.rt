//! What the program `workbench` does: tests of the ciphers that are done again and again, claims,
//! workers and merges that are timed, and published vectors that are read as lines. Words, a reader
//! and a writer go in.
#![tactic(auto)]

mod bench;
mod ciphers;
mod claims;
mod merging;
mod request;
mod table;
mod vectors;
mod workers;

pub use bench::workbench;
pub use ciphers::{Frame, Test, come_back, last_result};
pub use claims::claimed;
pub use merging::{Merged, merge_logs};
pub use request::{Request, USAGE};
pub use vectors::{VectorFault, answer_line, answer_lines};
pub use workers::{Hands, protected};
