//! The confidentiality offset of a key.

ghost use Rattle.std.specs.Prelude.{◌≡◌, ◌<◌};
ghost use Rattle.mkpdu_codec.specs.Offsets.{offset_bits, offset_of_bits};

/// How a key protects the user data of its frames (IEEE Std 802.1X, clause 11): with integrity
/// alone, or also in secret, from behind so many octets on. Frames have it in two bits.
#[derive(Clone, Copy, Debug, PartialEq, Eq)]
pub enum ConfidentialityOffset {
    /// Nothing is in secret.
    None,
    Octets0,
    Octets30,
    Octets50,
}

impl ConfidentialityOffset {
    /// The offset of two bits, the one of greater value first.
    pub fn of_bits(high: bool, low: bool) -> Self
        ensures { result ≡ offset_of_bits high low }
    {
        match (high, low) {
            (false, false) => ConfidentialityOffset::None,
            (false, true) => ConfidentialityOffset::Octets0,
            (true, false) => ConfidentialityOffset::Octets30,
            (true, true) => ConfidentialityOffset::Octets50,
        }
    }

    /// Its two bits as a number, 0 to 3.
    pub fn bits(self) -> u8
        ensures value { result ≡ offset_bits self }
        ensures few { result < 4 }
    {
        match self {
            ConfidentialityOffset::None => 0,
            ConfidentialityOffset::Octets0 => 1,
            ConfidentialityOffset::Octets30 => 2,
            ConfidentialityOffset::Octets50 => 3,
        }
    }
}
