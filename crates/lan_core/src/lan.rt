//! The group: all stations, the air, and one step for each event.

mod control;
mod settling;
mod stopping;
mod traffic;

ghost use Rattle.std.specs.Prelude.{◌≡◌, ◌+◌, ◌∷◌, ◌↔◌, [], List, ℕ, Option, Some, None, Err, option_map, IfOk, OnOk, OnErr, IfErr, IfSome, length, map, nat_eq, slice_get, sum};
ghost use Rattle.std.specs.Option.{option_copied};
ghost use Rattle.std.specs.List.{list_any};
ghost use Rattle.std.specs.Cmp.Lexicographic.{pointwise};
ghost use Rattle.lan_base.specs.declared.association_number.AssociationNumber.{AssociationNumber};
ghost use Rattle.lan_base.specs.declared.frame.UserFrame.{UserFrame};
ghost use Rattle.mka_kdf.specs.declared.group.GroupFault.{GroupFault};
ghost use Rattle.mka_kdf.specs.Kdf.{HasWrongLength};
ghost use Rattle.lan_core.specs.declared.settings.Settings.{Settings};
ghost use Rattle.lan_core.specs.declared.event.Event.TheVariants as events;
ghost use Rattle.lan_core.specs.Run.{Run, happened, stations};
ghost use Rattle.lan_core.specs.Ledgers.{air, frame_at};
ghost use Rattle.lan_core.specs.Lives.{receiving, transmitting_at};
ghost use Rattle.lan_core.specs.Expected.{expected, drawn_from};
ghost use Rattle.lan_core.specs.Keys.{held_at, place_of};
ghost use Rattle.lan_core.specs.Stops.{MayCome, draws_needed, first_stop};
ghost use Rattle.lan_core.specs.Standing.{StandsFor, octets_at, scis_in};
ghost use Rattle.lan_core.specs.Answers.{Answers, IsWhy};
ghost use Rattle.lan_core.specs.Batches.{HasSlots, IsChecked};

use crate::air::Air;
use crate::drawn::Drawn;
use crate::event::Event;
use crate::fact::Facts;
use crate::judge::Judge;
use crate::names::Names;
use crate::seats::Seats;
use crate::settings::{Settings, law_types_are_kept};
use crate::stop::StepError;
use crate::waiting::Queue;
use lan_base::{AssociationNumber, Draws, Name, Sci, UserFrame, is_ckn};
use mka_kdf::GroupFault;
use rx_slots::{Checked, RxSlots};
use sak_exchange::HeldKey;
use std::alloc::Global;
use std::marker::Model;

/// A group of stations, with all that is on the air between them. A group whose step failed goes no
/// further: it answers that error again, takes no draw, and shows the air and the names of before.
#[derive(Drop)]
pub struct Lan {
    alloc: Global,
    judge: Judge,
    stopped: Option<StepError>,
    names: Names,
    air: Air,
    seats: Seats,
    waiting: Queue,
    ticks: u32,
    drawn: Drawn,
}

impl Model for Lan {
    ghost use Rattle.std.specs.Prelude.{◌≤◌};
    ghost use Rattle.lan_base.specs.Ranges.{most_ticks};
    ghost use Rattle.lan_core.specs.Standing.{State};

    ghost Value = { State };

    ghost view = { λ l. record {
      settings = l.judge.settings;
      stopped = l.stopped;
      names = l.names;
      air = l.air;
      seats = l.seats;
      waiting = l.waiting;
      ticks = l.ticks;
      drawn = l.drawn;
    } };

    ghost invariant = { λ l. l.ticks ≤ most_ticks };
}

impl Lan {
    /// A group with no station.
    pub fn new(alloc: Global, settings: Settings) -> Result<Lan, GroupFault>
        ensures stands { (users : List UserFrame)
            → IfOk result (λ lan. StandsFor settings users lan []) }
        ensures length { (result ≡ Err GroupFault.CknLength) ↔ HasWrongLength settings.ckn }
    {
        if !is_ckn(settings.ckn.as_slice()) {
            return Err(GroupFault::CknLength);
        }
        law_types_are_kept(&settings);
        Ok(Lan {
            alloc,
            judge: Judge::new(alloc, settings),
            stopped: None,
            names: Names::new(alloc),
            air: Air::new(alloc),
            seats: Seats::new(alloc),
            waiting: Queue::new(alloc),
            ticks: 0,
            drawn: Drawn::new(alloc),
        })
    }

    /// One event happens. A claim of a packet number comes with its user frame.
    pub fn step<D: Draws>(
        &mut self,
        event: &Event,
        user: Option<&UserFrame>,
        draws: &mut D,
    ) -> Result<Facts, StepError>
        // Of a run whose next event may come: the event shows what it has to, takes the draws that
        // it needs, and the group then stands for the run with it.
        ensures facts { (settings : Settings) (users : List UserFrame) (r : Run)
            → StandsFor settings users self.old r
            → MayCome settings users r (option_copied user.entry) event.now
            → IfOk result (λ facts. expected settings users r event.now
            (drawn_from settings.suite (D.nth draws.old)) ≡ Some facts) }
        ensures stands { (settings : Settings) (users : List UserFrame) (r : Run)
            → StandsFor settings users self.old r
            → MayCome settings users r (option_copied user.entry) event.now
            → IfOk result (λ facts. StandsFor settings users self.new
            (happened event.now facts ∷ r)) }
        ensures drawn { (settings : Settings) (users : List UserFrame) (r : Run)
            → StandsFor settings users self.old r
            → MayCome settings users r (option_copied user.entry) event.now
            → OnOk result ((k : ℕ) → D.nth draws.new k
            ≡ D.nth draws.old (k + draws_needed settings r event.now)) }

        // It goes on only where it meets no stop, and fails at the first one, or for want of
        // memory.
        ensures goes { (settings : Settings) (users : List UserFrame) (r : Run)
            → StandsFor settings users self.old r
            → MayCome settings users r (option_copied user.entry) event.now
            → OnOk result (first_stop settings users r event.now (D.nth draws.old) ≡ None) }
        ensures refused { (settings : Settings) (users : List UserFrame) (r : Run)
            → StandsFor settings users self.old r
            → MayCome settings users r (option_copied user.entry) event.now
            → IfErr result (λ error.
            IsWhy (first_stop settings users r event.now (D.nth draws.old)) error) }

        // Where it fails the group is stopped, with the air and the names of before. It answers the
        // same from then on, and takes no draw.
        ensures stopped { IfErr result (λ error. self.new.stopped ≡ Some error) }
        ensures shown { OnErr result ((self.new.air ≡ self.old.air)
            × (self.new.names ≡ self.old.names)) }
        ensures again { IfSome self.old.stopped
            (λ error. (result ≡ Err error) × (self.new ≡ self.old)) }
        ensures undrawn { IfSome self.old.stopped (λ error. draws.new ≡ draws.old) }
    {
        if let Some(error) = self.stopped {
            return Err(error);
        }
        match self.perform(event, user, draws) {
            Ok(facts) => Ok(facts),
            Err(error) => {
                self.stopped = Some(error);
                Err(error)
            }
        }
    }

    /// A protected frame of the air reaches a station, and was checked by the station's receive
    /// slots, under the keys that stand now: what `Deliver` does, without the check.
    pub fn admit(&mut self, station: u8, number: u32, checked: Checked) -> Result<Facts, StepError>
        // It answers as a delivery does, and draws nothing.
        ensures answers { (settings : Settings) (users : List UserFrame) (r : Run)
            (nth : ℕ → Option (List ℕ))
            → StandsFor settings users self.old r → IsChecked r number station checked
            → Answers settings users r (events.Deliver number station) nth nth self.new result }

        // No admission changes the air or a name. Where one fails the group is stopped, and answers
        // that error from then on.
        ensures shown { (self.new.air ≡ self.old.air) × (self.new.names ≡ self.old.names) }
        ensures stopped { IfErr result (λ error. self.new.stopped ≡ Some error) }
        ensures again { IfSome self.old.stopped
            (λ error. (result ≡ Err error) × (self.new ≡ self.old)) }
    {
        if let Some(error) = self.stopped {
            return Err(error);
        }
        match self.admit_frame(station, number, checked) {
            Ok(facts) => Ok(facts),
            Err(fault) => {
                self.stopped = Some(fault);
                Err(fault)
            }
        }
    }

    /// The receive slots of a station, which check frames before they are admitted.
    pub fn slots(&self, station: u8) -> Option<&RxSlots>
        ensures { (settings : Settings) (users : List UserFrame) (r : Run)
            → StandsFor settings users self.now r
            → HasSlots settings (receiving station r) (option_copied result)
            (slice_get (stations r) station) }
    {
        match self.seats.get(station) {
            Some(seat) => Some(seat.slots()),
            None => None,
        }
    }

    /// The octets of the frame of a number.
    pub fn frame(&self, number: u32) -> Option<&[u8]>
        ensures octets { option_copied result ≡ octets_at self.now.air number }
        ensures frame { (settings : Settings) (users : List UserFrame) (r : Run)
            → StandsFor settings users self.now r
            → option_copied result ≡ option_map (λ f. f.octets) (frame_at r number) }
    {
        self.air.frame(number)
    }

    /// The place of the station of a name, also in a group that is stopped.
    pub fn station(&self, name: &Name) -> Option<u8>
        ensures { result ≡ place_of name.now self.now.names }
    {
        self.names.place(name)
    }

    /// The names of the stations, in the order of their starts, also in a group that is stopped.
    pub fn names(&self) -> &[Name]
        ensures names { result.now ≡ self.now.names }
        ensures stations { (settings : Settings) (users : List UserFrame) (r : Run)
            → StandsFor settings users self.now r → result.now ≡ map (λ p. p.name) (stations r) }
    {
        self.names.as_slice()
    }

    /// The SCI of the station of a place.
    pub fn sci(&self, station: u8) -> Option<Sci>
        ensures place { result ≡ slice_get (scis_in self.now) station }
        ensures stations { (settings : Settings) (users : List UserFrame) (r : Run)
            → StandsFor settings users self.now r
            → result ≡ slice_get (map (λ p. p.sci) (stations r)) station }
    {
        match self.seats.get(station) {
            Some(seat) => Some(seat.sci()),
            None => None,
        }
    }

    /// Whether a station has this SCI.
    pub fn has_sci(&self, sci: &Sci) -> bool
        ensures places { result
            ≡ list_any (λ other. pointwise nat_eq sci.now.0 other.0) (scis_in self.now) }
        ensures stations { (settings : Settings) (users : List UserFrame) (r : Run)
            → StandsFor settings users self.now r → result
            ≡ list_any (λ other. pointwise nat_eq sci.now.0 other.0)
            (map (λ p. p.sci) (stations r)) }
    {
        self.seats.has_sci(sci)
    }

    /// How many octets the frames of the air have together.
    pub fn octets(&self) -> u64
        ensures { (settings : Settings) (users : List UserFrame) (r : Run)
            → StandsFor settings users self.now r
            → result ≡ sum (map (λ frame. length frame.octets) (air r)) }
    {
        self.air.octets()
    }

    /// The association number and the epoch of the key that transmits at a station.
    pub fn transmitting(&self, station: u8) -> Option<(AssociationNumber, u32)>
        ensures { (settings : Settings) (users : List UserFrame) (r : Run)
            → StandsFor settings users self.now r
            → result ≡ option_map (λ k. (k.an, k.epoch)) (transmitting_at settings station r) }
    {
        match self.seats.get(station) {
            Some(seat) => numbers_of(seat.transmitting()),
            None => None,
        }
    }

    /// The key that a station holds under an association number.
    pub fn held(&self, station: u8, an: AssociationNumber) -> Option<HeldKey>
        ensures { (settings : Settings) (users : List UserFrame) (r : Run)
            → StandsFor settings users self.now r
            → result ≡ held_at settings station r an }
    {
        match self.seats.get(station) {
            Some(seat) => seat.held(an),
            None => None,
        }
    }

    /// An event happens to a group that is not stopped.
    fn perform<D: Draws>(
        &mut self,
        event: &Event,
        user: Option<&UserFrame>,
        draws: &mut D,
    ) -> Result<Facts, StepError>
        ensures answers { (settings : Settings) (users : List UserFrame) (r : Run)
            → StandsFor settings users self.old r
            → MayCome settings users r (option_copied user.entry) event.now
            → Answers settings users r event.now (D.nth draws.old)
            (D.nth draws.new) self.new result }
        ensures shown { OnErr result ((self.new.air ≡ self.old.air)
            × (self.new.names ≡ self.old.names)) }
    {
        match event {
            Event::Start {
                name,
                sci,
                priority,
            } => self.start(*name, *sci, *priority, draws),
            Event::Tick { station, next } => self.tick(*station, *next, draws),
            Event::Deliver { frame, station } => self.deliver(*frame, *station),
            Event::Restart { station } => self.restart(*station, draws),
            Event::Claim {
                station,
                user: _,
                pn,
            } => self.claim(*station, *pn, user),
            Event::Emit => self.emit(),
            Event::Inject { station, octets } => self.inject(*station, octets.as_slice()),
        }
    }
}

/// The association number and the epoch of a key.
fn numbers_of(held: Option<HeldKey>) -> Option<(AssociationNumber, u32)>
    ensures { result ≡ option_map (λ h. (h.key.an, h.key.epoch)) held }
{
    match held {
        Some(held) => Some((held.key.an, held.key.epoch)),
        None => None,
    }
}
