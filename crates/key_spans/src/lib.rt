//! The spans of the keys that facts tell of: what each station held under each association number,
//! from the install of a key to its end, in few columns of ticks. And the reigns: when it served. Both end
//! where it left its group. And what it sent under which number.
#![tactic(auto)]

mod claim;
mod clock;
mod court;
mod lane;
mod laws;
mod reign;
mod reigns;
mod row;
mod seat;
mod seats;
mod sends;
mod span;
mod spans;
mod track;

pub use claim::{Attempt, Claim};
pub use laws::{law_one_key_transmits, law_spans_do_not_overlap, law_spans_tell_of_held_keys};
pub use reign::Reign;
pub use reigns::Reigns;
pub use seats::Seats;
pub use sends::Sends;
pub use span::{End, Span, Why};
pub use spans::Spans;
