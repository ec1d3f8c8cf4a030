//! The lines of a transcript, of one group or of two: each is read to its fact, in which the stations
//! of both groups have places of their own, and handed to whoever takes facts.
#![tactic(auto)]

mod counting;
mod fact_reader;
mod fact_taker;
mod form;
mod group;
mod laws;
mod readers;
mod reading;
mod take_error;
mod time;
mod unfinished;

pub use counting::number_after;
pub use fact_reader::FactReader;
pub use fact_taker::FactTaker;
pub use form::Form;
pub use group::{Group, station_of};
pub use laws::{law_a_line_tells_one_fact, law_one_group_tells_what_it_reads};
pub use reading::{Reading, read_transcript};
pub use take_error::TakeError;
pub use time::{is_own, moves_time};
