//! Which key each sender of a capture came to use after which, of its fresh frames.

mod change;
mod notes;
mod sender;

pub use change::Change;
pub use notes::ChangeNotes;
