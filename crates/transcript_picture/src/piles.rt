//! The sends of one station in columns of one breadth: how many there were in each under each number, and how many were refused.

use key_spans::{Attempt, Sends};
use lan_base::AssociationNumber;
use std::alloc::{AllocError, Global};
use std::collections::BTreeMap;
use tick_columns::{Column, Thinned};

/// Behind which place refused sends lie in a column.
const REFUSED: u8 = 4;

/// The sends of a column under one number, with the epoch of the last one; or those that were refused, which have no number.
#[derive(Clone, Copy)]
pub struct Pile {
    pub number: Option<AssociationNumber>,
    pub epoch: u32,
    pub count: u64,
}

/// The piles of a station: by column, and in it by number, the refused sends last.
#[derive(Drop)]
pub struct Piles {
    ticks: u32,
    piles: BTreeMap<(u32, u8), Pile>,
}

impl Piles {
    /// Those of a station, in columns of at least so many ticks.
    pub fn of(alloc: Global, sends: &Sends, station: u8, least: u32) -> Result<Piles, AllocError> {
        let mut piles = Piles {
            ticks: breadth(sends, station, least),
            piles: BTreeMap::new(alloc),
        };
        for number in AssociationNumber::ALL {
            if let Some(row) = sends.claims(station, number) {
                piles.add_row(row, Some(number))?;
            }
        }
        if let Some(row) = sends.refusals(station) {
            piles.add_row(row, None)?;
        }
        Ok(piles)
    }

    /// How many ticks a column has.
    pub fn ticks(&self) -> u32 {
        self.ticks
    }

    /// All piles, by column and number.
    pub fn all(&self) -> &BTreeMap<(u32, u8), Pile> {
        &self.piles
    }

    /// How many sends there were.
    pub fn sum(&self) -> u64 {
        let mut sum = 0u64;
        for (_, pile) in &self.piles {
            sum = sum.saturating_add(pile.count);
        }
        sum
    }

    /// How many the fullest column has.
    pub fn most(&self) -> u64 {
        let mut most = 0u64;
        let mut column = 0u32;
        let mut count = 0u64;
        for (at, pile) in &self.piles {
            if at.0 != column {
                column = at.0;
                count = 0;
            }
            count = count.saturating_add(pile.count);
            most = most.max(count);
        }
        most
    }

    /// What was asked for comes: under a number, or what was refused.
    fn add_row(
        &mut self,
        row: &Thinned<Attempt>,
        number: Option<AssociationNumber>,
    ) -> Result<(), AllocError> {
        for column in row.earlier() {
            self.add_column(column, number)?;
        }
        match row.latest() {
            Some(column) => self.add_column(&column, number),
            None => Ok(()),
        }
    }

    /// A column of that comes.
    fn add_column(
        &mut self,
        column: &Column<Attempt>,
        number: Option<AssociationNumber>,
    ) -> Result<(), AllocError> {
        let pile = Pile {
            number,
            epoch: match column.last.got {
                Some(claim) => claim.epoch,
                None => 0,
            },
            count: column.before.saturating_add(1),
        };
        let place = match number {
            Some(number) => number.number(),
            None => REFUSED,
        };
        self.add(column.last.at, place, pile)
    }

    /// A pile comes to the column of this time, on what lies there at this place.
    fn add(&mut self, at: u32, place: u8, pile: Pile) -> Result<(), AllocError> {
        let key = (at.checked_div(self.ticks).unwrap_or(0), place);
        let before = match self.piles.get(&key) {
            Some(before) => before.count,
            None => 0,
        };
        self.piles.insert(
            key,
            Pile {
                count: pile.count.saturating_add(before),
                ..pile
            },
        )?;
        Ok(())
    }
}

/// The breadth of the widest columns of a station, and at least this one: as each is twice another one's or half of it, so
/// often as need be, all others lie in them.
fn breadth(sends: &Sends, station: u8, least: u32) -> u32 {
    let mut ticks = least;
    for number in AssociationNumber::ALL {
        if let Some(row) = sends.claims(station, number) {
            ticks = row.ticks().max(ticks);
        }
    }
    match sends.refusals(station) {
        Some(row) => row.ticks().max(ticks),
        None => ticks,
    }
}
