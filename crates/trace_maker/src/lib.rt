//! A trace that is made of a number: six stations, and 300 lines that a generator chooses.
#![tactic(auto)]

mod generator;
mod lines;
mod making;

pub use making::make;
