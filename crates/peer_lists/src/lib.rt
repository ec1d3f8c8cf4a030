//! Who is live, who is potential and whose message is old (IEEE Std 802.1X, clause 9): the peer
//! lists of one life of a station, proved against the history of what it sent and heard.
//!
//! Read first `PeerTable`, whose `hear` takes what an announcement tells, `Heard`, and answers an
//! `Outcome`; in `specs/`, `Histories`, and `Acceptance` for which message is accepted.
#![tactic(auto)]

mod heard;
mod laws;
mod places;
mod remembered;
mod sent_numbers;
mod table;

pub use heard::{Heard, Outcome, PeerRefusal, Row};
pub use laws::{
    law_age_is_ticks, law_kept_is_last, law_known_are_few, law_known_is_ascending,
    law_known_is_live_potential_or_displaced, law_live_exactly_where_it_says, law_live_is_not_own,
    law_newer_came_later, law_no_two_live_share_an_sci, law_sent_is_at_most_the_clock_and_one,
    law_vouched_is,
};
pub use table::PeerTable;

/// The most other members that are remembered at once, by `law_known_are_few` those of the
/// definitions.
pub const PEERS: usize = 64;
