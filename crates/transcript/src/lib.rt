//! The text of a transcript, line by line: a fact is rendered as its line, and a line is read back
//! as its fact.
#![tactic(auto)]

mod facts;
mod fault;
mod laws;
mod laying;
mod reader;
mod reading;
mod rendering;
mod run_laws;
mod spelling;
mod tables;
mod words;

pub use fault::FactError;
pub use laws::{law_a_line_is_one_fact, law_cut, law_no_fact_ends_a_line, law_texts_differ};
pub use reader::Reader;
pub use reading::read_fact;
pub use rendering::render;
pub use run_laws::{
    law_a_run_is_cut_into_its_events, law_more_names_change_no_line, law_typed_facts_have_lines,
};
