//! Addresses and identifiers of fixed length.

/// A MAC address (IEEE Std 802), the octet that is sent first standing first.
#[derive(Clone, Copy, Debug, PartialEq, Eq)]
pub struct Mac(pub [u8; 6]);

/// A secure channel identifier (IEEE Std 802.1AE): six octets of source address and two of port.
#[derive(Clone, Copy, Debug, PartialEq, Eq, PartialOrd, Ord)]
pub struct Sci(pub [u8; 8]);

impl Sci {
    ghost use Rattle.std.specs.Prelude.{◌≡◌, take};

    /// The source address: the first six octets.
    pub fn source(&self) -> Mac
        ensures { result.0 ≡ take 6 self.now.0 }
    {
        let [a, b, c, d, e, f, _, _] = self.0;
        Mac([a, b, c, d, e, f])
    }
}

/// A member identifier (IEEE Std 802.1X, clause 9): 12 octets that one life of a station draws.
#[derive(Clone, Copy, Debug, PartialEq, Eq, PartialOrd, Ord)]
pub struct Mi(pub [u8; 12]);
