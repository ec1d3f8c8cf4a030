//! Items that come one after another, in columns of ticks: so few are kept of however many.
#![tactic(auto)]

mod column;
mod thinned;
mod timed;

pub use column::Column;
pub use thinned::Thinned;
pub use timed::Timed;
