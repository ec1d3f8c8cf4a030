//! What the lines before the first station choose for the group.

ghost use Rattle.std.specs.Prelude.{◌≡◌};
ghost use Rattle.trace_acts.specs.Settings.{no_choice};

use aes_block::Secret;
use lan_base::{Blocks, Octets, Suite};

/// Where draws come from.
#[derive(Debug, Drop)]
pub enum Rule {
    /// They count.
    Counted,
    /// They are ChaCha's key stream, under a key of 32 octets.
    Streamed([u8; 32]),
    /// They are listed.
    Listed(Blocks),
}

/// A connectivity association key, and its name.
#[derive(Debug, Drop)]
pub struct Keyed {
    pub cak: Secret,
    pub ckn: Octets,
}

/// What each of these lines chose, where it came.
#[derive(Debug, Drop)]
pub struct Choices {
    pub draws: Option<Rule>,
    pub conf: Option<u32>,
    pub window: Option<u32>,
    pub rekey: Option<u32>,
    pub lag: Option<u32>,
    /// The suite of the keys that are made.
    pub suite: Option<Suite>,
    /// Whether stations have the key server flag also while they have elected nobody.
    pub early_flag: Option<bool>,
    pub group: Option<Keyed>,
}

impl Choices {
    /// No line came.
    pub fn new() -> Self
        ensures { result ≡ no_choice }
    {
        Choices {
            draws: None,
            conf: None,
            window: None,
            rekey: None,
            lag: None,
            suite: None,
            early_flag: None,
            group: None,
        }
    }
}
