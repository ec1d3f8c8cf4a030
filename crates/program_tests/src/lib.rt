//! Tests of the program from its edges to its top call that no command can show: sources and sinks
//! that fail or are interrupted, draws, lines that are judged one by one, and the top call at each
//! failing read and write, and at gates where threads meet.
#![tactic(auto)]

#[cfg(test)]
mod faults;
#[cfg(test)]
mod gates;
mod in_memory;
#[cfg(test)]
mod judging;
#[cfg(test)]
mod outside;
#[cfg(test)]
mod performing;
#[cfg(test)]
mod supplies;

pub use in_memory::{read_whole, write_whole};
