//! A station asks for a packet number.

ghost use Rattle.std.specs.Prelude.{◌≡◌};

use tick_columns::Timed;

/// A packet number under the key of an epoch.
#[derive(Clone, Copy)]
pub struct Claim {
    pub epoch: u32,
    pub pn: u32,
}

/// A station asked for a packet number at this tick.
#[derive(Clone, Copy)]
pub struct Attempt {
    pub at: u32,
    /// What it claimed; none where it got no number.
    pub got: Option<Claim>,
}

impl Timed for Attempt {
    ghost time = { λ attempt. attempt.at };

    fn at(&self) -> u32 {
        self.at
    }
}
