//! Why a protected frame is undecided.

ghost use Rattle.std.specs.Prelude.{◌≡◌};
ghost use Rattle.known_keys.specs.Undecided.{first_of};

/// Why a protected frame is undecided for which no known key is right: the first that holds. The first
/// three are of an identifier of a key that a right MKPDU less than 6.0 s older names under the
/// frame's association number, in giving it or in showing it in use.
#[derive(Clone, Copy, Debug, PartialEq, Eq)]
pub enum Reason {
    /// No SAK of it was given in the group, but a key for another cipher suite was.
    Suite,
    /// The first SAK of it in the group was given with a confidentiality offset of 30 or 50 octets.
    Offset,
    /// No key of it was given in the group.
    Unseen,
    /// An earlier MKPDU of a key name that no group has is of the frame's sender.
    Ckn,
    /// No key is known to the frame.
    NoKey,
}

/// The first of these that holds.
pub fn first_of(suite: bool, offset: bool, unseen: bool, ckn: bool, no_key: bool) -> Option<Reason>
    ensures { result ≡ first_of suite offset unseen ckn no_key }
{
    if suite {
        Some(Reason::Suite)
    } else if offset {
        Some(Reason::Offset)
    } else if unseen {
        Some(Reason::Unseen)
    } else if ckn {
        Some(Reason::Ckn)
    } else if no_key {
        Some(Reason::NoKey)
    } else {
        None
    }
}
