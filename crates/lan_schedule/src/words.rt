//! The words of all stations, which show packet numbers and give them.

ghost use Rattle.std.specs.Prelude.{◌≡◌, ◌≤◌, ◌<◌, ◌∷◌, [], ℕ, Bool, false, List, length, OnOk};
ghost use Rattle.std.specs.Prelude.{IfSome, IfNone, IfOk, Some, slice_get};
ghost use Rattle.lan_base.specs.declared.frame.UserFrame.{UserFrame};
ghost use Rattle.association_slots.specs.Views.{ControlAt};
ghost use Rattle.lan_core.specs.declared.event.Event.TheVariants as events;
ghost use Rattle.lan_core.specs.declared.settings.Settings.{Settings};
ghost use Rattle.lan_core.specs.Run.{Run, happened, stations};
ghost use Rattle.lan_core.specs.Expected.{last_number};
ghost use Rattle.lan_core.specs.Legal.{IsStepped};
ghost use Rattle.lan_core.specs.Standing.{State, StandsFor};
ghost use Rattle.group_safety.specs.Accounts.{IsExact};
ghost use Rattle.station_words.specs.Ties.{tables_of, AreTied, AreAhead, HaveKeptUp};
ghost use Rattle.station_words.specs.Ties.{HaveCaughtUp, CaughtAhead, Followed, HaveLooked};
ghost use Rattle.station_words.specs.Ties.{KeepCards};
ghost use Rattle.station_words.specs.Seats.{WasSeated, HasNoSeat, HasJoined, HasGot};
ghost use Rattle.station_words.specs.Seats.{NoMoreOut};
ghost use Rattle.worker_races.specs.Carded.{AreCarded};
ghost use Rattle.lan_schedule.specs.Numbers.{shown_next};
ghost use Rattle.lan_schedule.specs.Stages.{Says};
ghost use Rattle.lan_schedule.specs.inside.Recording.{KeepSeats, is_start};
ghost use Rattle.lan_schedule.specs.inside.Set.{SaysAhead, AreSet, IsGiven};

use association_slots::{SlotTable, WorkerSeat};
use lan_core::{Event, Fact, Lan};
use packet_claims::Gate;
use station_words::{
    Controls, law_all_words_keep_up, law_all_words_stay_caught_up, law_all_words_stay_tied,
    law_new_words_are_tied,
};
use std::alloc::{AllocError, Global};
use std::marker::Model;
use worker_races::{law_cards_stay_right, law_new_words_owe_no_card};

/// The words of all stations: the tables by place, and the hands that move them. Contracts see what
/// the hands know.
#[derive(Drop)]
pub struct Words {
    tables: Vec<SlotTable>,
    controls: Controls,
}

impl Model for Words {
    ghost use Rattle.std.specs.Prelude.{◌≡◌, List};
    ghost use Rattle.association_slots.specs.Views.{ControlAt};
    ghost use Rattle.station_words.specs.Ties.{tables_of};

    ghost Value = { List ControlAt };

    ghost view = { λ w. w.controls };

    ghost invariant = { λ w. tables_of w.controls ≡ w.tables.items };
}

impl Words {
    /// No station has started.
    pub fn new(alloc: Global) -> Self
        ensures { result ≡ [] }
    {
        Words {
            tables: Vec::new(alloc),
            controls: Controls::new(alloc),
        }
    }

    /// The number that a tick of a station shows: before the first race the next one under the key
    /// that transmits, and 0 without one; from then on it may be ahead.
    pub fn next(&mut self, station: u8) -> u64
        ensures next { (raced racing : Bool) (settings : Settings) (r : Run)
            → Says raced racing settings r self.old → station < length (stations r)
            → IsGiven raced (shown_next settings station r) result }
        ensures ahead { (raced racing : Bool) (settings : Settings) (r : Run)
            → Says raced racing settings r self.old → station < length (stations r)
            → SaysAhead raced racing settings r (events.Tick station result) self.new }
        ensures looked { HaveLooked self.old self.new }
        ensures same { tables_of self.new ≡ tables_of self.old }
    {
        self.controls.next(&self.tables, station)
    }

    /// The number that a station claims, 0 where no key transmits.
    pub fn claim<G: Gate>(&mut self, station: u8, gate: &G) -> u32
        ensures claimed { (settings : Settings) (r : Run) → AreTied settings r self.old
            → station < length (stations r) → shown_next settings station r ≤ last_number
            → result ≡ shown_next settings station r }
        ensures ahead { (settings : Settings) (r : Run) (user : ℕ) → AreTied settings r self.old
            → station < length (stations r) → shown_next settings station r ≤ last_number
            → AreAhead settings r (events.Claim station user result) self.new }
        // After a race it may be ahead of the next one.
        ensures gained { (settings : Settings) (r : Run) (user : ℕ) → HaveCaughtUp settings r self.old
            → station < length (stations r) → HasGot settings station r self.old result
            × CaughtAhead settings r (events.Claim station user result) self.new }
        ensures cards { KeepCards self.old self.new }
        ensures same { tables_of self.new ≡ tables_of self.old }
        ensures out { NoMoreOut self.old self.new }
    {
        self.controls.claim(&self.tables, station, gate)
    }

    // ---- seats

    /// The tables of the words, by place.
    pub fn tables(&self) -> &[SlotTable]
        ensures { result.now ≡ tables_of self.now }
    {
        self.tables.as_slice()
    }

    /// A handle of each table, by place, for threads that claim beside.
    pub fn handles(&self, alloc: Global) -> Result<Vec<SlotTable>, AllocError>
        ensures { IfOk result (λ handles. handles.items ≡ tables_of self.now) }
    {
        let mut handles = Vec::with_capacity(alloc, self.tables.len())?;
        for table in &self.tables {
            handles.push_reserved(table.handle()?);
        }
        Ok(handles)
    }

    /// A seat for a worker that claims beside at a station, unless eight are out there.
    pub fn seat(&mut self, station: u8) -> Option<WorkerSeat>
        ensures some { IfSome result (WasSeated station self.old self.new) }
        ensures none { IfNone result (self.new ≡ self.old) }
        ensures full { IfNone result (HasNoSeat station self.old) }
        ensures same { tables_of self.new ≡ tables_of self.old }
        ensures keeps_up { (settings : Settings) (r : Run) → HaveKeptUp settings r self.old
            → HaveKeptUp settings r self.new }
    {
        self.controls.seat(&self.tables, station)
    }

    /// A seat of a station comes back, and its words are told what it did.
    pub fn join(&mut self, station: u8, seat: WorkerSeat)
        requires { slice_get (tables_of self.old) station ≡ Some seat.table }
        ensures told { HasJoined station seat self.old self.new }
        ensures same { tables_of self.new ≡ tables_of self.old }
        ensures keeps_up { (settings : Settings) (r : Run) → HaveKeptUp settings r self.old
            → HaveKeptUp settings r self.new }
    {
        self.controls.join(&self.tables, station, seat);
    }

    // ---- events

    /// The words follow an event and its facts, after the step of the group.
    pub fn follow<G: Gate>(
        &mut self,
        alloc: Global,
        lan: &Lan,
        event: &Event,
        facts: &[Fact],
        gate: &G,
    ) -> Result<(), AllocError>
        ensures says { (raced racing : Bool) (settings : Settings) (users : List UserFrame)
            (before : State) (r : Run) → StandsFor settings users before r
            → StandsFor settings users lan.now (happened event.now facts.now ∷ r)
            → IsStepped settings users (happened event.now facts.now ∷ r)
            → (raced ≡ false → IsExact settings r event.now)
            → AreSet event.now raced racing settings r self.old
            → OnOk result (Says raced racing settings (happened event.now facts.now ∷ r) self.new) }
        ensures cards { (raced racing : Bool) (settings : Settings) (users : List UserFrame)
            (before : State) (r : Run) → StandsFor settings users before r
            → StandsFor settings users lan.now (happened event.now facts.now ∷ r)
            → IsStepped settings users (happened event.now facts.now ∷ r)
            → AreSet event.now raced racing settings r self.old → AreCarded settings r self.old
            → OnOk result (AreCarded settings (happened event.now facts.now ∷ r) self.new) }
        // No other station's words come.
        ensures followed { is_start event.now ≡ false → (settings : Settings)
            (users : List UserFrame) (r : Run)
            → StandsFor settings users lan.now (happened event.now facts.now ∷ r)
            → IsStepped settings users (happened event.now facts.now ∷ r)
            → OnOk result (Followed settings (happened event.now facts.now ∷ r) facts.now self.old
            self.new) }
        ensures seats { KeepSeats self.old self.new }
        ensures still { event.now ≡ events.Emit → self.new ≡ self.old }
    {
        law_all_words_stay_tied();
        law_all_words_stay_caught_up();
        law_all_words_keep_up();
        law_cards_stay_right();
        self.begin(alloc, event)?;
        if let Event::Emit = event {
            return Ok(());
        }
        self.controls.follow(&self.tables, lan, facts, gate);
        Ok(())
    }

    /// A station that starts gets words of its own.
    fn begin(&mut self, alloc: Global, event: &Event) -> Result<(), AllocError>
        ensures seats { KeepSeats self.old self.new }
        ensures same { is_start event.now ≡ false → self.new ≡ self.old }
        ensures ahead { (raced racing : Bool) (settings : Settings) (users : List UserFrame)
            (before : State) (r : Run) → StandsFor settings users before r
            → IsStepped settings users r → AreSet event.now raced racing settings r self.old
            → OnOk result (SaysAhead raced racing settings r event.now self.new) }
        ensures cards { (raced racing : Bool) (settings : Settings) (users : List UserFrame)
            (r : Run) → IsStepped settings users r
            → AreSet event.now raced racing settings r self.old → AreCarded settings r self.old
            → OnOk result (AreCarded settings r self.new) }
    {
        law_new_words_are_tied();
        law_new_words_owe_no_card();
        match event {
            Event::Start { .. } => self.controls.start(alloc, &mut self.tables),
            _ => Ok(()),
        }
    }
}
