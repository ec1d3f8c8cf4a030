//! The claims and the refused sends of stations.

ghost use Rattle.std.specs.Prelude.{ℕ, ◌≡◌, ◌++◌, ◌∷◌, [], List, OnOk};
ghost use Rattle.std.specs.Option.{option_copied};
ghost use Rattle.lan_core.specs.declared.fact.Fact.{Fact};
ghost use Rattle.tick_columns.specs.Columns.{IsThinned};
ghost use Rattle.key_spans.specs.Spans.{clock_after};
ghost use Rattle.key_spans.specs.Claims.{claims, refusals};
ghost use Rattle.key_spans.specs.Sends.{AreSendsOf, asked_at, or_bare, track_in};
ghost use Rattle.key_spans.specs.inside.Sending.{AreSendsAfter, IsAddedAt, IsClaimed};

use crate::claim::{Attempt, Claim};
use crate::clock::Clock;
use crate::track::Track;
use lan_base::AssociationNumber;
use lan_core::Fact;
use std::alloc::{AllocError, Global};
use std::marker::Model;
use tick_columns::Thinned;

/// The claims and the refused sends of the facts so far: of each station, and of claims of each number, the last one of each
/// column of ticks, and how many came before it there. Contracts see the rows of all stations, and the clock.
#[derive(Drop)]
pub struct Sends {
    clock: Clock,
    an0: Track,
    an1: Track,
    an2: Track,
    an3: Track,
    refused: Track,
}

impl Model for Sends {
    ghost use Rattle.key_spans.specs.Sends.{KeptSends};

    ghost Value = { KeptSends };

    ghost view = { λ s. record { clock = s.clock; an0 = s.an0; an1 = s.an1; an2 = s.an2; an3 = s.an3; refused = s.refused } };
}

impl Sends {
    /// No fact. No memory is taken.
    pub fn new(alloc: Global) -> Sends
        ensures { AreSendsOf [] result }
    {
        Sends {
            clock: Clock::start(),
            an0: Track::new(alloc),
            an1: Track::new(alloc),
            an2: Track::new(alloc),
            an3: Track::new(alloc),
            refused: Track::new(alloc),
        }
    }

    /// A fact more. After an error the value is of no use.
    pub fn take(&mut self, fact: &Fact) -> Result<(), AllocError>
        ensures { (facts : List Fact) → AreSendsOf facts self.old
            → OnOk result (AreSendsOf (facts ++ fact.now ∷ []) self.new) }
    {
        let at = self.clock.ticks;
        self.take_at(at, fact)?;
        self.tick(fact);
        Ok(())
    }

    /// The claims of a station under a number, in few columns, if it has rows.
    pub fn claims(&self, station: u8, number: AssociationNumber) -> Option<&Thinned<Attempt>>
        ensures { (facts : List Fact) → AreSendsOf facts self.now
            → IsThinned asked_at (claims station number facts) (or_bare (option_copied result)) }
    {
        self.track(number).row(station)
    }

    /// The refused sends of a station, in few columns, if it has rows.
    pub fn refusals(&self, station: u8) -> Option<&Thinned<Attempt>>
        ensures { (facts : List Fact) → AreSendsOf facts self.now
            → IsThinned asked_at (refusals station facts) (or_bare (option_copied result)) }
    {
        self.refused.row(station)
    }

    /// The claims under a number.
    fn track(&self, number: AssociationNumber) -> &Track
        ensures { result.now ≡ track_in self.now number }
    {
        match number {
            AssociationNumber::An0 => &self.an0,
            AssociationNumber::An1 => &self.an1,
            AssociationNumber::An2 => &self.an2,
            AssociationNumber::An3 => &self.an3,
        }
    }

    /// The clock goes on where a fact moves time on.
    fn tick(&mut self, fact: &Fact)
        ensures { self.new ≡ record self.old { clock = clock_after self.old.clock fact.now } }
    {
        self.clock = self.clock.after(fact);
    }

    /// A fact of this time is taken.
    fn take_at(&mut self, at: u32, fact: &Fact) -> Result<(), AllocError>
        ensures { OnOk result (AreSendsAfter at fact.now self.old self.new) }
    {
        match fact {
            Fact::Claimed {
                station,
                an,
                epoch,
                pn,
            } => self.claim(
                *station,
                *an,
                Attempt {
                    at,
                    got: Some(Claim {
                        epoch: *epoch,
                        pn: *pn,
                    }),
                },
            ),
            Fact::Unclaimed { station, .. } => self.refuse(*station, Attempt { at, got: None }),
            _ => Ok(()),
        }
    }

    /// A station claims a packet number under this association number.
    fn claim(
        &mut self,
        station: u8,
        number: AssociationNumber,
        claim: Attempt,
    ) -> Result<(), AllocError>
        ensures { OnOk result (IsClaimed number station claim self.old self.new) }
    {
        match number {
            AssociationNumber::An0 => self.an0.add(station, claim),
            AssociationNumber::An1 => self.an1.add(station, claim),
            AssociationNumber::An2 => self.an2.add(station, claim),
            AssociationNumber::An3 => self.an3.add(station, claim),
        }
    }

    /// A send of a station is refused.
    fn refuse(&mut self, station: u8, refusal: Attempt) -> Result<(), AllocError>
        ensures { OnOk result (IsAddedAt station refusal self.old.refused self.new.refused
            × (self.new ≡ record self.old { refused = self.new.refused })) }
    {
        self.refused.add(station, refusal)
    }
}
