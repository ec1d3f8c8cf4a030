//! What right frames and right MKPDUs of a capture tell of changes of key, of members, and of who was
//! ready for a key, what a picture marks of them, and what is seen of a whole capture.
#![tactic(auto)]

mod facts;
mod marks;
mod names;
mod told_facts;
mod view;

pub use facts::AuditFacts;
pub use view::AuditView;
