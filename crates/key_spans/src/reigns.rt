//! When stations serve.

ghost use Rattle.std.specs.Prelude.{ℕ, ◌≡◌, ◌++◌, ◌∷◌, ◌<◌, [], List, length, OnOk};
ghost use Rattle.std.specs.Option.{option_copied};
ghost use Rattle.lan_core.specs.declared.fact.Fact.{Fact};
ghost use Rattle.tick_columns.specs.Columns.{IsThinned};
ghost use Rattle.key_spans.specs.Reigns.{reigns};
ghost use Rattle.key_spans.specs.Courts.{AreReignsOf, begun_at, court_at, shown_reigns};
ghost use Rattle.key_spans.specs.inside.Ruling.{AreCourtsAfter, AreCourtsAlike, HasCourt, IsCourtAfter};

use crate::clock::Clock;
use crate::court::Court;
use crate::reign::Reign;
use lan_core::Fact;
use std::alloc::{AllocError, Global};
use std::marker::Model;
use tick_columns::Thinned;

/// The reigns of the stations of the facts so far: of each station the last one of each column of ticks, and how many
/// came before it there. Contracts see the reigns of all stations, and the clock.
#[derive(Drop)]
pub struct Reigns {
    alloc: Global,
    clock: Clock,
    courts: Vec<Court>,
}

impl Model for Reigns {
    ghost use Rattle.key_spans.specs.Courts.{KeptReigns};

    ghost Value = { KeptReigns };

    ghost view = { λ r. record { clock = r.clock; courts = r.courts.items } };
}

impl Reigns {
    /// No fact. No memory is taken.
    pub fn new(alloc: Global) -> Reigns
        ensures { AreReignsOf [] result }
    {
        Reigns {
            alloc,
            clock: Clock::start(),
            courts: Vec::new(alloc),
        }
    }

    /// A fact more. After an error the value is of no use.
    pub fn take(&mut self, fact: &Fact) -> Result<(), AllocError>
        ensures { (facts : List Fact) → AreReignsOf facts self.old
            → OnOk result (AreReignsOf (facts ++ fact.now ∷ []) self.new) }
    {
        self.take_in(fact)
    }

    /// The reigns of a station, in few columns, where it began a life.
    pub fn row(&self, station: u8) -> Option<&Thinned<Reign>>
        ensures { (facts : List Fact) → AreReignsOf facts self.now
            → IsThinned begun_at (reigns station facts) (shown_reigns (option_copied result)) }
    {
        Some(self.courts.get(station as usize)?.reigns())
    }

    /// A fact is taken.
    fn take_in(&mut self, fact: &Fact) -> Result<(), AllocError>
        ensures { OnOk result (AreCourtsAfter fact.now self.old self.new) }
    {
        self.make_place(fact)?;
        self.take_at(fact)?;
        self.clock = self.clock.after(fact);
        Ok(())
    }

    /// The station of a fact that begins a life has a court from now on.
    fn make_place(&mut self, fact: &Fact) -> Result<(), AllocError>
        ensures same { AreCourtsAlike self.old self.new }
        ensures there { OnOk result (HasCourt fact.now self.new) }
    {
        match fact {
            Fact::Life { station, .. } => self.reach(*station),
            _ => Ok(()),
        }
    }

    /// A fact is taken at its station, if that has a court.
    fn take_at(&mut self, fact: &Fact) -> Result<(), AllocError>
        requires { HasCourt fact.now self.old }
        ensures clock { self.new.clock ≡ self.old.clock }
        ensures courts { OnOk result ((s : ℕ) → IsCourtAfter s self.old.clock.ticks fact.now
            (court_at self.old.courts s) (court_at self.new.courts s)) }
    {
        let Some(court) = self.courts.get_mut(fact.place() as usize) else {
            return Ok(());
        };
        court.take(self.clock.ticks, fact)
    }

    /// A station has a court from now on, and so have those before it.
    fn reach(&mut self, station: u8) -> Result<(), AllocError>
        ensures same { AreCourtsAlike self.old self.new }
        ensures there { OnOk result (station < length self.new.courts) }
    {
        for _ in self.courts.len()..station as usize + 1 {
            self.courts.push(Court::new(self.alloc))?;
        }
        Ok(())
    }
}
