//! Association numbers (IEEE Std 802.1AE, 9.6).

ghost use Rattle.std.specs.Prelude.{◌≡◌, ◌↔◌, ◌<◌, Some, IsTrue};
ghost use Rattle.lan_base.specs.AssociationNumbers.{behind, number_of, numbered, of_bits};

/// Which of a sender's four secure associations a protected frame belongs to. Frames have it in
/// two bits.
#[derive(Clone, Copy, Debug, PartialEq, Eq)]
pub enum AssociationNumber {
    An0,
    An1,
    An2,
    An3,
}

impl AssociationNumber {
    /// All four, in the order of their numbers.
    pub const ALL: [AssociationNumber; 4] = [
        AssociationNumber::An0,
        AssociationNumber::An1,
        AssociationNumber::An2,
        AssociationNumber::An3,
    ];

    /// The number of two bits, the one of greater value first.
    pub fn of_bits(high: bool, low: bool) -> Self
        ensures { result ≡ of_bits high low }
    {
        match (high, low) {
            (false, false) => AssociationNumber::An0,
            (false, true) => AssociationNumber::An1,
            (true, false) => AssociationNumber::An2,
            (true, true) => AssociationNumber::An3,
        }
    }

    /// The one with this number, 0 to 3.
    pub fn of(number: u32) -> Option<Self>
        ensures { result ≡ numbered number }
    {
        match number {
            0 => Some(AssociationNumber::An0),
            1 => Some(AssociationNumber::An1),
            2 => Some(AssociationNumber::An2),
            3 => Some(AssociationNumber::An3),
            _ => None,
        }
    }

    /// As a number, 0 to 3.
    pub fn number(self) -> u8
        ensures value { result ≡ number_of self }
        ensures few { result < 4 }
    {
        match self {
            AssociationNumber::An0 => 0,
            AssociationNumber::An1 => 1,
            AssociationNumber::An2 => 2,
            AssociationNumber::An3 => 3,
        }
    }

    /// The next one in turn: the first is behind the last.
    pub fn behind(self) -> Self
        ensures { result ≡ behind self }
    {
        match self {
            AssociationNumber::An0 => AssociationNumber::An1,
            AssociationNumber::An1 => AssociationNumber::An2,
            AssociationNumber::An2 => AssociationNumber::An3,
            AssociationNumber::An3 => AssociationNumber::An0,
        }
    }
}
