//! Under which keys, offsets and IVs a protected frame may be right, where packet numbers have 64 bits
//! and a frame has their low half: what is tried, and what tells the high halves.
#![tactic(auto)]

mod candidate;
mod form;
mod highs;
mod laws;
mod numbers;
mod place;
mod shown;
mod trying;

pub use candidate::{Candidate, Tried, XpnNumber};
pub use form::{Beginning, Form, Salted, Sscis};
pub use laws::law_few_missed;
pub use numbers::XpnNumbers;
pub use place::{Place, Places};
pub use shown::{ShownHigh, ShownHighs};
