//! What lies from left to right, in tenths of units.

/// Where something begins, and how wide it is.
#[derive(Clone, Copy)]
pub struct Stretch {
    pub x: u64,
    pub width: u64,
}

/// Where all that is shown lies.
#[derive(Clone, Copy)]
pub struct Extent {
    /// Where the first one lies.
    pub left: u64,
    /// How wide all are together.
    pub breadth: u64,
    /// The least width of a stretch.
    pub least: u64,
}

impl Extent {
    /// Where that lies before which there are so many of all.
    pub fn x(self, before: u64, all: u64) -> u64 {
        let within = before.min(all).saturating_mul(self.breadth);
        self.left
            .saturating_add(within.checked_div(all).unwrap_or(0))
    }

    /// From one place to another one.
    pub fn stretch(self, from: u64, to: u64) -> Stretch {
        Stretch {
            x: from,
            width: to.saturating_sub(from).max(self.least),
        }
    }
}
