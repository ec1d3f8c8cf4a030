//! The stations of a group, by their places.

ghost use Rattle.std.specs.Prelude.{◌≡◌, ◌≤◌, ◌++◌, ◌∷◌, ◌⊎◌, ℕ, [], true, length, nat_eq, slice_get, Option, Some, IsSomeAnd, IfSome, IfOk, IfErr, OnOk, OnErr, List};
ghost use Rattle.std.specs.Option.{option_copied};
ghost use Rattle.std.specs.List.{list_any};
ghost use Rattle.std.specs.Cmp.Lexicographic.{pointwise};
ghost use Rattle.lan_base.specs.declared.frame.UserFrame.{UserFrame};
ghost use Rattle.gcm_frames.specs.Tags.{is_sec};
ghost use Rattle.rx_slots.specs.Histories.{Receiving};
ghost use Rattle.mka_station.specs.Drawing.{is_short};
ghost use Rattle.mka_station.specs.declared.tick_error.TickError.{TickError};
ghost use Rattle.lan_core.specs.declared.settings.Settings.{Settings};
ghost use Rattle.lan_core.specs.Run.{Run};
ghost use Rattle.lan_core.specs.Ledgers.{next_frame};
ghost use Rattle.lan_core.specs.Lives.{Life, receiving, seen_at};
ghost use Rattle.lan_core.specs.Order.{most_octets};
ghost use Rattle.lan_core.specs.Standing.{Seat, Sits};
ghost use Rattle.lan_core.specs.Batches.{checked_at};
ghost use Rattle.lan_core.specs.inside.Judge.{IsOf};
ghost use Rattle.lan_core.specs.inside.Seats.{Claims, IsFew, IsPast, Ticks, Reaches, Restarts};

use crate::claimed::Claimed;
use crate::event_facts::EventFacts;
use crate::judge::Judge;
use crate::seat::Seat;
use crate::stop::Stop;
use lan_base::{Draws, Sci, UserFrame};
use mka_station::TickError;
use rx_slots::Checked;
use std::alloc::{AllocError, Global};
use std::marker::Model;

/// The stations of a group, in the order of their starts. Contracts see the list.
#[derive(Drop)]
pub struct Seats {
    seats: Vec<Seat>,
}

impl Model for Seats {
    ghost use Rattle.std.specs.Prelude.{List};
    ghost use Rattle.lan_core.specs.Standing.{Seat};

    ghost Value = { List Seat };

    ghost view = { λ s. s.seats.items };
}

impl Seats {
    /// No station, which takes no memory.
    pub fn new(alloc: Global) -> Seats
        ensures { result ≡ [] }
    {
        Seats {
            seats: Vec::new(alloc),
        }
    }

    /// The station of a place.
    pub fn get(&self, place: u8) -> Option<&Seat>
        ensures { option_copied result ≡ slice_get self.now place }
    {
        self.seats.get(place as usize)
    }

    /// Whether a station has this SCI.
    pub fn has_sci(&self, sci: &Sci) -> bool
        ensures { result ≡ list_any (λ seat. pointwise nat_eq sci.now.0 seat.station.setup.sci.0)
            self.now }
    {
        self.seats.iter().any(|seat| sci.0 == seat.sci().0)
    }

    /// A station with more ticks in its life than there may be, or more installs, stops its group before
    /// it counts on.
    pub fn judge_counts(&self, place: u8) -> Result<(), Stop>
        ensures few { OnOk result (IfSome (slice_get self.now place) IsFew) }
        ensures past { OnErr result (IsSomeAnd (slice_get self.now place) IsPast) }
    {
        match self.get(place) {
            Some(seat) => seat.judge_counts(),
            None => Ok(()),
        }
    }

    /// Appends a station.
    pub fn push(&mut self, seat: Seat) -> Result<(), AllocError>
        ensures { OnOk result (self.new ≡ self.old ++ seat ∷ []) }
    {
        self.seats.push(seat)?;
        Ok(())
    }

    /// A tick at a station, if it is there, where the next frame of the air has this number.
    pub fn tick<D: Draws>(
        &mut self,
        place: u8,
        number: u32,
        next: u64,
        draws: &mut D,
    ) -> Result<Option<EventFacts>, TickError>
        requires { IfSome (slice_get self.old place) IsFew }
        ensures event_facts { (settings : Settings) (r : Run) (seat : Seat) (l : Life)
            → slice_get self.old place ≡ Some seat → Sits settings.window l (receiving place r) seat
            → number ≡ next_frame r
            → IfOk result (λ event_facts. IsSomeAnd event_facts (Ticks settings r place seat l next
            (D.nth draws.old) (D.nth draws.new)
            self.old self.new)) }
        ensures spent { (settings : Settings) (r : Run) (seat : Seat) (l : Life)
            → slice_get self.old place ≡ Some seat → Sits settings.window l (receiving place r) seat
            → IfErr result (λ fault. (fault ≡ TickError.Memory)
            ⊎ ((fault ≡ TickError.DrawsSpent)
            × (is_short l.member l.past (seen_at settings place r l next) (D.nth draws.old)
            ≡ true))) }
    {
        let Some(seat) = self.seats.get_mut(place as usize) else {
            return Ok(None);
        };
        let facts = match seat.tick(place, number, next, draws) {
            Ok(facts) => facts,
            Err(fault) => return Err(fault),
        };
        let installs = seat.installs();
        Ok(Some(EventFacts { facts, installs }))
    }

    /// A frame of this number, or foreign octets under the number 0, reach a station, if it is
    /// there. The judge is that of its group.
    pub fn reach(
        &mut self,
        place: u8,
        number: u32,
        octets: &[u8],
        judge: &mut Judge,
    ) -> Result<Option<EventFacts>, AllocError>
        requires light { length octets.now ≤ most_octets }
        requires few { IfSome (slice_get self.old place) IsFew }
        ensures event_facts { (settings : Settings) (r : Run) (seat : Seat) (l : Life)
            → slice_get self.old place ≡ Some seat → Sits settings.window l (receiving place r) seat
            → IsOf judge.old.settings l.member.setup
            → IfOk result (λ event_facts. IsSomeAnd event_facts
            (Reaches settings r place seat l number octets.now self.old self.new)) }
        ensures kept { judge.new.settings ≡ judge.old.settings }
    {
        let Some(seat) = self.seats.get_mut(place as usize) else {
            return Ok(None);
        };
        let facts = seat.reach(place, number, octets, judge)?;
        let installs = seat.installs();
        Ok(Some(EventFacts { facts, installs }))
    }

    /// A protected frame of this number reaches a station, if it is there, and was answered as far
    /// as its tag under the keys that stand there now.
    pub fn admit(
        &mut self,
        place: u8,
        number: u32,
        checked: Checked,
    ) -> Result<Option<EventFacts>, AllocError>
        ensures { (settings : Settings) (r : Run) (seat : Seat) (l : Life) (octets : List ℕ)
            → slice_get self.old place ≡ Some seat → Sits settings.window l (receiving place r) seat
            → is_sec octets ≡ true
            → checked ≡ checked_at place r l.member.setup.sci octets
            → IfOk result (λ event_facts. IsSomeAnd event_facts
            (Reaches settings r place seat l number octets self.old self.new)) }
    {
        let Some(seat) = self.seats.get_mut(place as usize) else {
            return Ok(None);
        };
        let facts = seat.admit(place, number, checked)?;
        let installs = seat.installs();
        Ok(Some(EventFacts { facts, installs }))
    }

    /// A station starts again, if it is there.
    pub fn restart(&mut self, place: u8, draw: [u8; 16]) -> Result<Option<EventFacts>, AllocError>
        ensures { (settings : Settings) (r : Run) (seat : Seat) (l : Life)
            → slice_get self.old place ≡ Some seat → Sits settings.window l (receiving place r) seat
            → IfOk result (λ event_facts. IsSomeAnd event_facts
            (Restarts settings r place seat l draw self.old self.new)) }
    {
        let Some(seat) = self.seats.get_mut(place as usize) else {
            return Ok(None);
        };
        let facts = seat.restart(place, draw)?;
        let installs = seat.installs();
        Ok(Some(EventFacts { facts, installs }))
    }

    /// What a claim of a packet number comes to at a station, if it is there, with its user frame.
    pub fn claim(
        &mut self,
        place: u8,
        pn: u32,
        user: Option<&UserFrame>,
    ) -> Result<Option<Claimed>, AllocError>
        ensures claimed { (window : ℕ) (h : List Receiving) (seat : Seat) (l : Life)
            → slice_get self.old place ≡ Some seat → Sits window l h seat
            → IfOk result (λ claimed. IsSomeAnd claimed (Claims l pn (option_copied user.entry))) }
        ensures same { OnOk result (self.new ≡ self.old) }
    {
        let Some(seat) = self.seats.get_mut(place as usize) else {
            return Ok(None);
        };
        let claimed = seat.claim(pn, user)?;
        Ok(Some(claimed))
    }
}
