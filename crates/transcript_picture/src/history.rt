//! The lives of one station.

use lan_base::Mi;
use std::alloc::{AllocError, Global};
use tick_columns::{Thinned, Timed};

/// A life began at this tick.
#[derive(Clone, Copy)]
pub struct Birth {
    pub at: u32,
    pub mi: Mi,
}

impl Timed for Birth {
    ghost time = { λ birth. birth.at };

    fn at(&self) -> u32 {
        self.at
    }
}

/// The lives of one station, the earliest first, in few columns, and how many there were.
#[derive(Drop)]
pub struct History {
    births: Thinned<Birth>,
    lives: u32,
}

impl History {
    /// Nothing. No memory is taken.
    pub fn new(alloc: Global) -> History {
        History {
            births: Thinned::new(alloc),
            lives: 0,
        }
    }

    /// The lives.
    pub fn births(&self) -> &Thinned<Birth> {
        &self.births
    }

    /// Which life this member is, from 1, if it is the station's now.
    pub fn life_of(&self, mi: Mi) -> Option<u32> {
        match self.births.last() {
            Some(birth) if birth.mi == mi => Some(self.lives),
            _ => None,
        }
    }

    /// A life begins.
    pub fn begin(&mut self, at: u32, mi: Mi) -> Result<(), AllocError> {
        self.lives = self.lives.saturating_add(1);
        self.births.add(Birth { at, mi })
    }
}
