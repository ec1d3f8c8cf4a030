//! When stations left one of two groups.

ghost use Rattle.std.specs.Prelude.{ℕ, ◌≡◌, ◌++◌, ◌∷◌, ◌<◌, ◌+◌, ◌==◌, if◌then◌else◌, [], List, length, OnOk, OnErr};
ghost use Rattle.lan_core.specs.declared.fact.Fact.{Fact};
ghost use Rattle.key_spans.specs.Leaving.{left};
ghost use Rattle.key_spans.specs.Seats.{AreSeatsOf, seat_at};
ghost use Rattle.key_spans.specs.declared.seat.Seat.{Seat};
ghost use Rattle.key_spans.specs.inside.Seating.{EachSeat, HasSeat, at_place, passed, seat_after, stays};

use crate::clock::Clock;
use crate::seat::Seat;
use lan_core::Fact;
use std::alloc::{AllocError, Global};
use std::marker::Model;

/// How many places lie between those of one station in the two groups.
const APART: usize = 16;

/// When the stations of the facts so far left a group. Contracts see the seats of all places, and the clock.
#[derive(Drop)]
pub struct Seats {
    clock: Clock,
    seats: Vec<Seat>,
}

impl Model for Seats {
    ghost use Rattle.key_spans.specs.Seats.{KeptSeats};

    ghost Value = { KeptSeats };

    ghost view = { λ s. record { clock = s.clock; seats = s.seats.items } };
}

impl Seats {
    /// No fact. No memory is taken.
    pub fn new(alloc: Global) -> Seats
        ensures { AreSeatsOf [] result }
    {
        Seats {
            clock: Clock::start(),
            seats: Vec::new(alloc),
        }
    }

    /// A fact more. After an error the value stands for the facts before.
    pub fn take(&mut self, fact: &Fact) -> Result<(), AllocError>
        ensures taken { (facts : List Fact) → AreSeatsOf facts self.old
            → OnOk result (AreSeatsOf (facts ++ fact.now ∷ []) self.new) }
        ensures kept { (facts : List Fact) → AreSeatsOf facts self.old
            → OnErr result (AreSeatsOf facts self.new) }
    {
        self.make_place(fact)?;
        self.settle(self.clock.after(fact), fact);
        Ok(())
    }

    /// When a station left its place, if it did.
    pub fn left(&self, station: u8) -> Option<u32>
        ensures { (facts : List Fact) → AreSeatsOf facts self.now → result ≡ left station facts }
    {
        self.seats.get(station as usize)?.left()
    }

    /// The station of a fact that tells that it is there has a seat from now on.
    fn make_place(&mut self, fact: &Fact) -> Result<(), AllocError>
        ensures same { EachSeat stays self.old self.new }
        ensures there { OnOk result (HasSeat fact.now self.new) }
    {
        match fact {
            Fact::Life { station, .. } | Fact::Ticked { station, .. } => self.reach(*station),
            _ => Ok(()),
        }
    }

    /// A fact is told, behind which this is the clock.
    fn settle(&mut self, clock: Clock, fact: &Fact)
        requires { HasSeat fact.now self.old }
        ensures clock { self.new.clock ≡ clock }
        ensures seats { (s : ℕ) → seat_at self.new.seats s
            ≡ seat_after s clock.ticks fact.now (seat_at self.old.seats s) }
    {
        self.clock = clock;
        match fact {
            Fact::Life { station, .. } => self.put(*station, Seat::Taken(clock.ticks)),
            Fact::Ticked { station, .. } => {
                self.put(*station, Seat::Taken(clock.ticks));
                self.pass_behind(*station);
                self.pass_before(*station);
            }
            _ => {}
        }
    }

    /// The seat of a place, where it has one, is another one.
    fn put(&mut self, place: u8, seat: Seat)
        requires { place < length self.old.seats }
        ensures { EachSeat (at_place place (λ s. seat)) self.old self.new }
    {
        if let Some(kept) = self.seats.get_mut(place as usize) {
            *kept = seat;
        }
    }

    /// A station of the first group ticks: its place in the second is passed.
    fn pass_behind(&mut self, place: u8)
        ensures { EachSeat (at_place (place + 16) passed) self.old self.new }
    {
        self.pass(place as usize + APART);
    }

    /// A station of the second group ticks: its place in the first is passed.
    fn pass_before(&mut self, place: u8)
        ensures { EachSeat (λ s seat. if s + 16 == place then passed seat else seat) self.old self.new }
    {
        if let Some(before) = (place as usize).checked_sub(APART) {
            self.pass(before);
        }
    }

    /// The station of a place, if it was ever there, ticks in the other group.
    fn pass(&mut self, place: usize)
        ensures { EachSeat (at_place place passed) self.old self.new }
    {
        let Some(seat) = self.seats.get_mut(place) else {
            return;
        };
        pass_seat(seat);
    }

    /// A place has a seat from now on, and so have those before it.
    fn reach(&mut self, place: u8) -> Result<(), AllocError>
        ensures same { EachSeat stays self.old self.new }
        ensures there { OnOk result (place < length self.new.seats) }
    {
        for _ in self.seats.len()..place as usize + 1 {
            self.seats.push(Seat::Empty)?;
        }
        Ok(())
    }
}

/// A seat becomes that behind a tick of its station in the other group.
fn pass_seat(seat: &mut Seat)
    ensures { seat.new ≡ passed seat.old }
{
    *seat = seat.passed();
}
