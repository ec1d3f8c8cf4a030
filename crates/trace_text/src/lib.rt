//! The text of a trace, line by line: what each form of a line says, read from its words and
//! written as words.
#![tactic(auto)]

mod appending;
mod blocks;
mod fault;
mod forms;
mod hexadecimal;
mod keyword;
mod kinds;
mod laws;
mod limits;
mod line;
mod reading;
pub mod twin;
mod words;
mod writing;

pub use appending::{Word, put_words};
pub use fault::{LineError, TextFault};
pub use forms::read_form;
pub use keyword::Keyword;
pub use kinds::{decoded, expect_key, expect_octets, read_array, read_name, read_number};
pub use laws::{law_read_or_refused, law_written_is_read};
pub use limits::{MAX_BURST_FRAMES, MAX_BURSTS, MAX_CONTROL, MAX_LINE, MAX_WORKERS, law_limits};
pub use line::Line;
pub use reading::{is_comment, read_line};
pub use words::{next_word, one_word, three_words, two_words};
pub use writing::write_line;
