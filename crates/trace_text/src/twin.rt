//! The text of a trace of two groups, line by line: what each form of a line says.

mod forms;
mod laws;
mod line;
mod reading;

pub use laws::{law_plain_as_of_one_group, law_read_or_refused};
pub use line::RollLine;
pub use reading::read_roll_line;
