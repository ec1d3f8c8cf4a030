//! What is kept of the MKPDUs of a capture that are right under a group: whether each is new, comes
//! again, or fell behind its member's own; and what is told of each member by what they say.
#![tactic(auto)]

mod claim;
mod facts;
mod kept;
mod laws;
mod member;
mod member_facts;
mod mkpdu;
mod notes;
mod novelty;
mod seldom;
mod speaker;
mod sums;

pub use facts::{Member, MemberCounts, Times};
pub use laws::{law_a_repetition_changes_no_other, law_a_repetition_comes_again};
pub use member_facts::MemberFacts;
pub use mkpdu::RightMkpdu;
pub use notes::MemberNotes;
pub use novelty::MkpduNovelty;
pub use sums::MemberSums;
