//! Rows of attempts of stations, by place.

ghost use Rattle.std.specs.Prelude.{ℕ, ◌≡◌, ◌<◌, [], length, OnOk};
ghost use Rattle.std.specs.Option.{option_copied};
ghost use Rattle.key_spans.specs.Sends.{or_bare, track_at};
ghost use Rattle.key_spans.specs.inside.Sending.{IsAddedAt};

use crate::claim::Attempt;
use std::alloc::{AllocError, Global};
use std::marker::Model;
use tick_columns::Thinned;

/// Rows of attempts of stations, by place. Contracts see the columns of each.
#[derive(Drop)]
pub struct Track {
    alloc: Global,
    rows: Vec<Thinned<Attempt>>,
}

impl Model for Track {
    ghost use Rattle.key_spans.specs.Sends.{Track};

    ghost Value = { Track };

    ghost view = { λ t. t.rows.items };
}

impl Track {
    /// No attempt. No memory is taken.
    pub fn new(alloc: Global) -> Track
        ensures { result ≡ [] }
    {
        Track {
            alloc,
            rows: Vec::new(alloc),
        }
    }

    /// The row of a station, if it has one.
    pub fn row(&self, station: u8) -> Option<&Thinned<Attempt>>
        ensures { or_bare (option_copied result) ≡ track_at self.now station }
    {
        self.rows.get(station as usize)
    }

    /// An attempt more of a station, which is not before those that came. After an error the rows are of no use.
    pub fn add(&mut self, station: u8, attempt: Attempt) -> Result<(), AllocError>
        ensures { OnOk result (IsAddedAt station attempt self.old self.new) }
    {
        self.reach(station)?;
        self.put(station, attempt)
    }

    /// An attempt more of a station that has a row.
    fn put(&mut self, station: u8, attempt: Attempt) -> Result<(), AllocError>
        requires { station < length self.old }
        ensures { OnOk result (IsAddedAt station attempt self.old self.new) }
    {
        let Some(row) = self.rows.get_mut(station as usize) else {
            return Ok(());
        };
        row.add(attempt)
    }

    /// A station has a row from now on, and so have those before it.
    fn reach(&mut self, station: u8) -> Result<(), AllocError>
        ensures same { (s : ℕ) → track_at self.new s ≡ track_at self.old s }
        ensures there { OnOk result (station < length self.new) }
    {
        for _ in self.rows.len()..station as usize + 1 {
            self.rows.push(Thinned::new(self.alloc))?;
        }
        Ok(())
    }
}
