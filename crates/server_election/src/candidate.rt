//! A station that may be elected.

use lan_base::{Mi, Sci};

/// The priority that never serves, by `law_never_serves` that of the definitions.
pub const NEVER: u8 = 255;

/// A station that may serve, and its key server priority; the least serves.
#[derive(Clone, Copy, Debug, PartialEq, Eq)]
pub struct Candidate {
    pub mi: Mi,
    pub sci: Sci,
    pub priority: u8,
}

impl Candidate {
    ghost use Rattle.std.specs.Prelude.{◌≡◌};
    ghost use Rattle.server_election.specs.Election.{may_serve, precedes};

    /// Whether its priority lets it serve.
    pub(crate) fn may_serve(&self) -> bool
        ensures { result ≡ may_serve self.now }
    {
        self.priority != NEVER
    }

    /// Whether this pair of priority and SCI is the smaller one.
    pub(crate) fn precedes(&self, other: &Candidate) -> bool
        ensures { result ≡ precedes self.now other.now }
    {
        let by_sci = self.sci.cmp(&other.sci);
        self.priority.cmp(&other.priority).then(by_sci).is_lt()
    }
}
