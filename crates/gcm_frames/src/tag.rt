//! What a frame says of itself, and why it is malformed.

use lan_base::{AssociationNumber, Sci};
use thiserror::Error;

/// What a protected frame says of itself in its SecTAG (IEEE Std 802.1AE, clause 9), and where its
/// secure data stands.
#[derive(Clone, Copy, Debug, PartialEq, Eq)]
pub struct Tag {
    /// The secure channel of the sender.
    pub sci: Sci,
    pub an: AssociationNumber,
    /// The packet number. 0 is read too, though no sender writes it.
    pub pn: u32,
    /// Whether the user data is enciphered.
    pub conf: bool,
    /// The octet at which the secure data starts, counted from 0.
    pub start: usize,
    /// How many octets of secure data there are. The tag of 16 octets stands behind them.
    pub len: usize,
}

/// Why a frame is no protected frame: the first of these that applies.
#[derive(Clone, Copy, Debug, PartialEq, Eq, Error)]
pub enum TagRefusal {
    /// Too short for an EtherType, or another one than that of MACsec.
    #[error("not a MACsec frame")]
    NotSec,
    /// Another version of the SecTAG.
    #[error("the SecTAG has another version")]
    Version,
    /// A single copy broadcast, an SCI given twice or not at all, or user data that is either
    /// enciphered and not changed or changed and not enciphered.
    #[error("the SecTAG's flags are those of another mode")]
    Mode,
    /// The frame ends before its tag does.
    #[error("the frame is too short")]
    Short,
    /// The short length is 48 or more, or is 0 where fewer than 48 octets of secure data follow.
    #[error("the short length is wrong")]
    SlWrong,
}

impl TagRefusal {
    ghost use Rattle.std.specs.Prelude.{◌≡◌};
    ghost use Rattle.gcm_frames.specs.Tags.{tag_text};

    /// The word that tells it.
    pub fn text(self) -> &'static [u8]
        ensures { result.now ≡ tag_text self }
    {
        match self {
            TagRefusal::NotSec => b"notsec",
            TagRefusal::Version => b"version",
            TagRefusal::Mode => b"mode",
            TagRefusal::Short => b"short",
            TagRefusal::SlWrong => b"slwrong",
        }
    }
}
