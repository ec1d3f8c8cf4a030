//! The kinds of arrivals, and how many there were of each.

use rx_slots::Arrival;

/// A kind of arrival.
#[derive(Clone, Copy)]
pub enum Kind {
    Accepted,
    Late,
    Missed,
    Bad,
}

impl Kind {
    /// All kinds, from the top.
    pub const ALL: [Kind; 4] = [Kind::Accepted, Kind::Late, Kind::Missed, Kind::Bad];

    /// Its word.
    pub fn word(self) -> &'static [u8] {
        match self {
            Kind::Accepted => b"accepted",
            Kind::Late => b"late",
            Kind::Missed => b"missed",
            Kind::Bad => b"bad",
        }
    }

    /// Its count.
    pub fn of(self, tally: &Tally) -> u64 {
        match self {
            Kind::Accepted => tally.accepted,
            Kind::Late => tally.late,
            Kind::Missed => tally.missed,
            Kind::Bad => tally.bad,
        }
    }
}

/// How many arrivals there were.
#[derive(Clone, Copy)]
pub struct Tally {
    accepted: u64,
    late: u64,
    missed: u64,
    bad: u64,
}

impl Tally {
    /// Nothing.
    pub const NONE: Tally = Tally {
        accepted: 0,
        late: 0,
        missed: 0,
        bad: 0,
    };

    /// That of one arrival. A station's own frames count nowhere.
    pub fn of(arrival: &Arrival) -> Tally {
        match arrival {
            Arrival::Accepted { .. } => Tally {
                accepted: 1,
                ..Tally::NONE
            },
            Arrival::Late { .. } => Tally {
                late: 1,
                ..Tally::NONE
            },
            Arrival::Missed { .. } => Tally {
                missed: 1,
                ..Tally::NONE
            },
            Arrival::BadCheck | Arrival::Malformed(_) => Tally {
                bad: 1,
                ..Tally::NONE
            },
            Arrival::Own => Tally::NONE,
        }
    }

    /// Both together.
    pub fn plus(self, other: Tally) -> Tally {
        Tally {
            accepted: self.accepted.saturating_add(other.accepted),
            late: self.late.saturating_add(other.late),
            missed: self.missed.saturating_add(other.missed),
            bad: self.bad.saturating_add(other.bad),
        }
    }

    /// All of them.
    pub fn sum(&self) -> u64 {
        self.accepted
            .saturating_add(self.late)
            .saturating_add(self.missed)
            .saturating_add(self.bad)
    }
}
