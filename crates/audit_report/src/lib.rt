//! What an audit of a capture tells: what each packet is, its lines, how many there are of each kind,
//! and the report at the end.
#![tactic(auto)]

mod blame;
mod changes;
mod ending;
mod events;
mod finding;
mod hand_key;
mod laws;
mod lines;
mod members;
mod packets;
mod readiness;
mod report;
mod tally;
mod unknown;
mod uses;
mod verdict;

pub use blame::{Blame, Breach};
pub use ending::Ending;
pub use finding::{Finding, Handed};
pub use hand_key::put_hand_line;
pub use laws::law_a_front_is_told_first;
pub use members::put_member;
pub use packets::{begin_line, put_finding};
pub use report::{begin_end, finish_end};
pub use tally::{Malformations, MkaCounts, SecCounts, Tally, UndecidedCounts};
pub use unknown::{UnknownName, UnknownNames};
pub use uses::{TimedUse, timed_uses};
pub use verdict::Verdict;
