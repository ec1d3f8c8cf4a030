//! Where right frames of a key and sender stand.

ghost use Rattle.std.specs.Prelude.{◌≡◌};
ghost use Rattle.xpn_numbers.specs.History.{places_after};

/// The short SCI and the high half of the packet number of a right frame.
#[derive(Clone, Copy, Debug, PartialEq, Eq)]
pub struct Place {
    pub ssci: u32,
    pub high: u32,
}

/// The first and the last place of the right frames of a key and sender.
#[derive(Clone, Copy, Debug, PartialEq, Eq)]
pub struct Places {
    pub first: Place,
    pub last: Place,
}

/// The places when a right frame more comes.
pub fn places_after(before: Option<Places>, place: Place) -> Places
    ensures { result ≡ places_after before place }
{
    match before {
        Some(places) => Places {
            first: places.first,
            last: place,
        },
        None => Places {
            first: place,
            last: place,
        },
    }
}
