//! The text of one station in a real LAN: what each line of its input says, and its live lines, which
//! tell a data path what to do.
//!
//! The lines of the input are read as those of a trace, and several are the same.
#![tactic(auto)]

mod forms;
mod laws;
mod line;
mod live;
mod reading;
mod writing;

pub use laws::{law_plain_as_of_a_trace, law_read_or_refused};
pub use line::MemberLine;
pub use live::{ChannelState, Live, PeerState, Withholding};
pub use reading::read_member_line;
pub use writing::write_live;
