//! What is tried of a frame.

ghost use Rattle.std.specs.Prelude.{◌≡◌};
ghost use Rattle.xpn_numbers.specs.Candidates.{plain_candidate, xpn_candidate};

use gcm_frames::{iv_of, xpn_iv_of};
use lan_base::Sci;

/// A protected frame that is tried under a key, counted from 1: its sender, the packet number of its
/// SecTAG, and its time in nanoseconds.
#[derive(Clone, Copy, Debug, PartialEq, Eq)]
pub struct Tried {
    pub key: u32,
    pub sci: Sci,
    pub pn: u32,
    pub nanos: u64,
}

/// A key, how many octets of user data are in clear, and an IV, under which a frame may be right.
#[derive(Clone, Copy, Debug, PartialEq, Eq)]
pub struct Candidate {
    pub key: u32,
    pub clear: usize,
    pub iv: [u8; 12],
    /// What the frame's number is under it, where packet numbers have 64 bits.
    pub xpn: Option<XpnNumber>,
}

/// A short SCI, and a packet number of 64 bits.
#[derive(Clone, Copy, Debug, PartialEq, Eq)]
pub struct XpnNumber {
    pub ssci: u32,
    pub number: u64,
}

impl Candidate {
    ghost use Rattle.std.specs.Prelude.{◌≡◌};

    /// With the IV of the frame's SCI and packet number.
    pub(crate) fn plain(tried: &Tried, clear: usize) -> Candidate
        ensures { result ≡ plain_candidate tried.now clear }
    {
        Candidate {
            key: tried.key,
            clear,
            iv: iv_of(tried.sci, tried.pn),
            xpn: None,
        }
    }

    /// With a salt, a short SCI, and a high half of the packet number.
    pub(crate) fn with_high(
        tried: &Tried,
        clear: usize,
        salt: [u8; 12],
        ssci: u32,
        high: u32,
    ) -> Candidate
        ensures { result ≡ xpn_candidate tried.now clear salt ssci high }
    {
        let number = u64::from(high) * 4_294_967_296 + u64::from(tried.pn);
        Candidate {
            key: tried.key,
            clear,
            iv: xpn_iv_of(salt, ssci, number),
            xpn: Some(XpnNumber { ssci, number }),
        }
    }
}
