//! What is known of one sender.

use crate::entry::{Bar, Known, Reported};
use lan_base::Mi;
use std::alloc::{AllocError, Global};
use tick_columns::Thinned;

/// The most members that are named.
const MOST: usize = 8;

/// The keys of one sender, and its members, of which the first are named.
#[derive(Drop)]
pub struct Lane {
    pub bars: Thinned<Bar>,
    pub known: Thinned<Known>,
    pub reported: Thinned<Reported>,
    pub members: Vec<(u32, Mi)>,
    pub count: u32,
}

impl Lane {
    /// Nothing. No memory is taken.
    pub fn new(alloc: Global) -> Lane {
        Lane {
            bars: Thinned::new(alloc),
            known: Thinned::new(alloc),
            reported: Thinned::new(alloc),
            members: Vec::new(alloc),
            count: 0,
        }
    }

    /// A member speaks under the sender's SCI.
    pub fn join(&mut self, group: u32, mi: Mi) -> Result<(), AllocError> {
        self.count = self.count.saturating_add(1);
        if self.members.len() < MOST {
            self.members.push((group, mi))?;
        }
        Ok(())
    }
}
