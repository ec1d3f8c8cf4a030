//! What stands in a lane.

use crate::origin::Origin;
use audit_report::TimedUse;
use rollover_notes::Report;
use tick_columns::Timed;

/// A key that the sender used, from the first fresh frame under it to the last.
#[derive(Clone, Copy)]
pub struct Bar {
    pub told: TimedUse,
    pub origin: Origin,
}

impl Timed for Bar {
    ghost time = { λ bar. bar.told.noted.counts.first };

    fn at(&self) -> u32 {
        self.told.noted.counts.first
    }
}

/// A key that the sender used or reported was known from this packet on.
#[derive(Clone, Copy)]
pub struct Known {
    pub packet: u32,
    pub key: u32,
    pub origin: Origin,
}

impl Timed for Known {
    ghost time = { λ known. known.packet };

    fn at(&self) -> u32 {
        self.packet
    }
}

/// A member that speaks under the sender's SCI reported a key.
#[derive(Clone, Copy)]
pub struct Reported {
    pub report: Report,
    pub origin: Origin,
}

impl Timed for Reported {
    ghost time = { λ reported. reported.report.packet };

    fn at(&self) -> u32 {
        self.report.packet
    }
}
