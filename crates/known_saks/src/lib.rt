//! The SAKs that a data path may have had, by their marks: what is kept of a SAK is the CMAC under it of
//! no octets, which does not give it back. Equal SAKs have equal marks.
#![tactic(auto)]

mod laws;
mod marks;

pub use laws::law_noted_is_known;
pub use marks::KnownSaks;
