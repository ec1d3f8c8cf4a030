//! A transcript is judged line by line, whoever wrote it: whether a packet number was used twice,
//! and whether an identifier names two keys.
#![tactic(auto)]

mod check;
mod epochs;
mod fault;
mod judging;
mod laws;
mod named;
mod notes;
mod uses;
mod verdict;

pub use check::Check;
pub use epochs::Epochs;
pub use fault::{CheckError, CheckFault};
pub use judging::judge;
pub use laws::{law_clean, law_every_fact_has_a_line, law_one_line_is_refused};
pub use verdict::Verdict;
