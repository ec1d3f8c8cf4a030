//! What arrived, counted in columns.

use crate::kind::Tally;
use rx_slots::Arrival;
use std::alloc::{AllocError, Global};

/// The most columns of a station.
const MOST: u32 = 202;

/// What arrived at each station, in columns of as many ticks each as make them few, and at all of them.
#[derive(Drop)]
pub struct Columns {
    alloc: Global,
    ticks: u32,
    all: Tally,
    lanes: Vec<Vec<Tally>>,
}

impl Columns {
    /// Nothing arrived. No memory is taken.
    pub fn new(alloc: Global) -> Columns {
        Columns {
            alloc,
            ticks: 1,
            all: Tally::NONE,
            lanes: Vec::new(alloc),
        }
    }

    /// How many ticks a column has.
    pub fn ticks(&self) -> u32 {
        self.ticks
    }

    /// What arrived at all stations.
    pub fn all(&self) -> Tally {
        self.all
    }

    /// The columns of a station, as far as something arrived.
    pub fn of(&self, station: u8) -> &[Tally] {
        match self.lanes.get(station as usize) {
            Some(lane) => lane.as_slice(),
            None => &[],
        }
    }

    /// Something arrives at a station at this tick.
    pub fn take(&mut self, station: u8, at: u32, arrival: &Arrival) -> Result<(), AllocError> {
        self.all = self.all.plus(Tally::of(arrival));
        self.widen(at);
        let column = self.column_of(at) as usize;
        self.reach(station as usize, column)?;
        if let Some(lane) = self.lanes.get_mut(station as usize) {
            if let Some(tally) = lane.get_mut(column) {
                *tally = tally.plus(Tally::of(arrival));
            }
        }
        Ok(())
    }

    /// The column of a tick.
    fn column_of(&self, at: u32) -> u32 {
        at.checked_div(self.ticks).unwrap_or(0)
    }

    /// Columns become wider until there is one for this tick.
    fn widen(&mut self, at: u32) {
        for _ in 0..32 {
            if self.column_of(at) < MOST {
                return;
            }
            self.double();
        }
    }

    /// Each two columns become one.
    fn double(&mut self) {
        self.ticks = self.ticks.saturating_mul(2);
        for lane in &mut self.lanes {
            halve(lane);
        }
    }

    /// A station has a column of this place from now on.
    fn reach(&mut self, station: usize, column: usize) -> Result<(), AllocError> {
        for _ in self.lanes.len()..station.saturating_add(1) {
            self.lanes.push(Vec::new(self.alloc))?;
        }
        if let Some(lane) = self.lanes.get_mut(station) {
            for _ in lane.len()..column.saturating_add(1) {
                lane.push(Tally::NONE)?;
            }
        }
        Ok(())
    }
}

/// Each two tallies become one.
fn halve(lane: &mut Vec<Tally>) {
    let pairs = lane.len().div_ceil(2);
    for pair in 0..pairs {
        let one = at(lane, pair.saturating_mul(2));
        let other = at(lane, pair.saturating_mul(2).saturating_add(1));
        if let Some(tally) = lane.get_mut(pair) {
            *tally = one.plus(other);
        }
    }
    lane.truncate(pairs);
}

/// The tally of a place, nothing where there is none.
fn at(lane: &[Tally], place: usize) -> Tally {
    lane.get(place).copied().unwrap_or(Tally::NONE)
}
