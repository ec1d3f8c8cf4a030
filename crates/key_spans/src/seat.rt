//! Where a station was last in one of two groups.

ghost use Rattle.std.specs.Prelude.{◌≡◌};
ghost use Rattle.key_spans.specs.inside.Seating.{left_at, passed};

/// What facts tell of a station's place in a group. Times are ticks.
#[derive(Clone, Copy)]
pub enum Seat {
    /// It was never there.
    Empty,
    /// It was there last at this time.
    Taken(u32),
    /// It ticked once in the other group since then.
    Passed(u32),
    /// It ticked there more than once since then.
    Left(u32),
}

impl Seat {
    /// The seat behind a tick of its station in the other group.
    pub fn passed(self) -> Seat
        ensures { result ≡ passed self }
    {
        match self {
            Seat::Empty => Seat::Empty,
            Seat::Taken(at) => Seat::Passed(at),
            Seat::Passed(at) => Seat::Left(at),
            Seat::Left(at) => Seat::Left(at),
        }
    }

    /// When its station left it, if it did.
    pub fn left(self) -> Option<u32>
        ensures { result ≡ left_at self }
    {
        match self {
            Seat::Left(at) => Some(at),
            _ => None,
        }
    }
}
