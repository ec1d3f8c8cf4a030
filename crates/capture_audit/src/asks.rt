//! What is asked of an audit.

/// What is asked of an audit.
#[derive(Clone, Copy, Debug, PartialEq, Eq)]
pub struct Asks {
    /// A line of each packet.
    pub shows: bool,
    /// That a protected frame is right, and none wrong or undecided.
    pub strict: bool,
    /// Keys themselves, in the lines that tell of them.
    pub keys: bool,
}
