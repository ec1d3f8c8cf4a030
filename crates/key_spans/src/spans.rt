//! The spans of facts that come one after another.

ghost use Rattle.std.specs.Prelude.{◌≡◌, ◌++◌, ◌∷◌, ◌<◌, [], List, length, slice_get, OnOk, OnErr};
ghost use Rattle.std.specs.Option.{option_copied};
ghost use Rattle.lan_core.specs.declared.fact.Fact.{Fact};
ghost use Rattle.lan_core.specs.Run.{place};
ghost use Rattle.key_spans.specs.Spans.{clock, clock_after, spans, start};
ghost use Rattle.tick_columns.specs.Columns.{IsThinned};
ghost use Rattle.key_spans.specs.Standing.{StandsFor, installed_at, shown};
ghost use Rattle.key_spans.specs.inside.Taking.{IsKept, IsPlaced, IsReached, IsFactTaken, TakesAt};

use crate::clock::Clock;
use crate::lane::Lane;
use crate::span::Span;
use lan_base::AssociationNumber;
use lan_core::Fact;
use std::alloc::{AllocError, Global};
use std::marker::Model;
use tick_columns::Thinned;

/// The spans of the facts so far: of each station and number the last one of each column of ticks, and
/// how many came before it there. Contracts see the rows of all stations, and the clock.
#[derive(Drop)]
pub struct Spans {
    alloc: Global,
    clock: Clock,
    lanes: Vec<Lane>,
}

impl Model for Spans {
    ghost use Rattle.key_spans.specs.Standing.{KeptSpans};

    ghost Value = { KeptSpans };

    ghost view = { λ s. record { clock = s.clock; lanes = s.lanes.items } };
}

impl Spans {
    /// No fact. No memory is taken.
    pub fn new(alloc: Global) -> Spans
        ensures { StandsFor [] result }
    {
        Spans {
            alloc,
            clock: Clock::start(),
            lanes: Vec::new(alloc),
        }
    }

    /// A fact more. After an error the value stands for the facts before.
    pub fn take(&mut self, fact: &Fact) -> Result<(), AllocError>
        ensures taken { (facts : List Fact) → StandsFor facts self.old
            → OnOk result (StandsFor (facts ++ fact.now ∷ []) self.new) }
        ensures kept { (facts : List Fact) → StandsFor facts self.old
            → OnErr result (StandsFor facts self.new) }
    {
        self.take_in(fact)
    }

    /// The time, in ticks.
    pub fn clock(&self) -> u32
        ensures { (facts : List Fact) → StandsFor facts self.now → result ≡ (clock start facts).ticks }
    {
        self.clock.ticks
    }

    /// The keys that a station held under a number, in few columns, if it has rows.
    pub fn row(&self, station: u8, number: AssociationNumber) -> Option<&Thinned<Span>>
        ensures { (facts : List Fact) → StandsFor facts self.now
            → IsThinned installed_at (spans station number facts) (shown (option_copied result)) }
    {
        Some(self.lanes.get(station as usize)?.row(number))
    }

    /// A fact is taken.
    fn take_in(&mut self, fact: &Fact) -> Result<(), AllocError>
        ensures taken { OnOk result (IsFactTaken fact.now self.old self.new) }
        ensures kept { OnErr result (IsKept self.old self.new) }
    {
        self.make_place(fact)?;
        self.take_at(fact)?;
        self.tick(fact);
        Ok(())
    }

    /// The station of a fact that installs a key has rows from now on.
    fn make_place(&mut self, fact: &Fact) -> Result<(), AllocError>
        ensures same { IsReached self.old self.new }
        ensures there { OnOk result (IsPlaced fact.now self.new) }
    {
        match fact {
            Fact::Installed { station, .. } => self.reach(*station),
            _ => Ok(()),
        }
    }

    /// The clock goes on where a fact moves time on.
    fn tick(&mut self, fact: &Fact)
        ensures clock { self.new.clock ≡ clock_after self.old.clock fact.now }
        ensures lanes { self.new.lanes ≡ self.old.lanes }
    {
        self.clock = self.clock.after(fact);
    }

    /// A fact is taken at its station, if that has rows.
    fn take_at(&mut self, fact: &Fact) -> Result<(), AllocError>
        ensures { TakesAt fact.now self.old self.new (slice_get self.old.lanes (place fact.now)) result }
    {
        let Some(lane) = self.lanes.get_mut(fact.place() as usize) else {
            return Ok(());
        };
        lane.take(self.clock.ticks, fact)
    }

    /// The station of a place has rows from now on, and so have those before it.
    fn reach(&mut self, station: u8) -> Result<(), AllocError>
        ensures same { IsReached self.old self.new }
        ensures there { OnOk result (station < length self.new.lanes) }
    {
        for _ in self.lanes.len()..station as usize + 1 {
            self.lanes.push(Lane::new(self.alloc))?;
        }
        Ok(())
    }
}
