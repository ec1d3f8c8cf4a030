//! The hands that move the words of all stations.

ghost use Rattle.std.specs.Prelude.{◌≡◌, ◌+◌, ◌≤◌, ◌<◌, ◌∷◌, ◌++◌, ℕ, List, [], length, OnOk, OnErr};
ghost use Rattle.std.specs.Prelude.{IfSome, IfNone, Some, slice_get};
ghost use Rattle.lan_base.specs.declared.frame.UserFrame.{UserFrame};
ghost use Rattle.association_slots.specs.Views.{ControlAt};
ghost use Rattle.lan_core.specs.declared.event.Event.TheVariants as events;
ghost use Rattle.lan_core.specs.declared.settings.Settings.{Settings};
ghost use Rattle.lan_core.specs.Run.{Run, stations};
ghost use Rattle.lan_core.specs.Lives.{transmitting_at};
ghost use Rattle.lan_core.specs.Unstopped.{next_under};
ghost use Rattle.lan_core.specs.Expected.{last_number};
ghost use Rattle.lan_core.specs.Standing.{StandsFor};
ghost use Rattle.group_safety.specs.Accounts.{blank};
ghost use Rattle.station_words.specs.Telling.{Tells};
ghost use Rattle.station_words.specs.Ties.{tables_of, AreTied, AreAhead, HaveKeptUp};
ghost use Rattle.station_words.specs.Ties.{KeepAhead, HaveCaughtUp, CaughtAhead, Followed};
ghost use Rattle.station_words.specs.Ties.{HaveLooked, KeepCards};
ghost use Rattle.station_words.specs.Seats.{WasSeated, HasNoSeat, HasJoined, AreAllIn, HasGot};
ghost use Rattle.station_words.specs.Seats.{NoMoreOut};

use crate::control::TransmitControl;
use crate::following::{card_of, moved};
use association_slots::{SlotTable, WorkerSeat};
use lan_core::{Fact, Lan};
use packet_claims::Gate;
use std::alloc::{AllocError, Global};
use std::marker::Model;

/// The hands that move the words of all stations, by place. The tables lie elsewhere, so that
/// threads can share them while control moves. Contracts see which tables they are of, and what
/// they know.
#[derive(Drop)]
pub struct Controls {
    controls: Vec<TransmitControl>,
}

impl Model for Controls {
    ghost use Rattle.std.specs.Prelude.{List};
    ghost use Rattle.association_slots.specs.Views.{ControlAt};

    ghost Value = { List ControlAt };

    ghost view = { λ c. c.controls.items };
}

impl Controls {
    /// No station has started.
    pub fn new(alloc: Global) -> Self
        ensures { result ≡ [] }
    {
        Controls {
            controls: Vec::new(alloc),
        }
    }

    /// Words for a station that is about to start, behind those of the others. An `Err` leaves
    /// everything as it was.
    pub fn start(&mut self, alloc: Global, tables: &mut Vec<SlotTable>) -> Result<(), AllocError>
        requires here { tables_of self.old ≡ tables.old.items }
        ensures here { tables_of self.new ≡ tables.new.items }
        ensures one_more { OnOk result ((c : ControlAt) × (self.new ≡ self.old ++ c ∷ [])
            × Tells blank c.view) }
        ensures unchanged { OnErr result ((self.new ≡ self.old)
            × (tables.new.items ≡ tables.old.items)) }
    {
        let (table, control) = TransmitControl::new(alloc)?;
        self.controls.push(control)?;
        match tables.push(table) {
            Ok(()) => Ok(()),
            Err(full) => {
                self.controls.pop();
                Err(full.into())
            }
        }
    }

    /// The number that a tick of a station shows: the next one under the key that transmits, or 0.
    pub fn next(&mut self, tables: &[SlotTable], station: u8) -> u64
        requires here { tables_of self.old ≡ tables.now }
        ensures same { tables_of self.new ≡ tables_of self.old }
        // no word is told anything
        ensures looked { HaveLooked self.old self.new }
        ensures next { (settings : Settings) (r : Run) → AreTied settings r self.old
            → station < length (stations r)
            → result ≡ next_under settings station r (transmitting_at settings station r) }
        ensures ahead { (settings : Settings) (r : Run) → AreTied settings r self.old
            → station < length (stations r)
            → AreAhead settings r (events.Tick station result) self.new }
        // also while seats are out, whose claims the run doesn't have yet
        ensures not_below { (settings : Settings) (r : Run) → HaveKeptUp settings r self.old
            → station < length (stations r)
            → (next_under settings station r (transmitting_at settings station r) ≤ result)
            × (next_under settings station r (transmitting_at settings station r) ≡ 0
            → result ≡ 0) }
        ensures keeps_up { (settings : Settings) (r : Run) → HaveKeptUp settings r self.old
            → station < length (stations r)
            → KeepAhead settings r (events.Tick station result) self.new }
        // after workers claimed beside, the words may be ahead of the run by a few numbers
        ensures catches_up { (settings : Settings) (r : Run) → HaveCaughtUp settings r self.old
            → station < length (stations r)
            → (result ≤ next_under settings station r (transmitting_at settings station r) + 16)
            × CaughtAhead settings r (events.Tick station result) self.new }
    {
        let place = usize::from(station);
        if place < self.controls.len() {
            self.controls[place].next(&tables[place])
        } else {
            0
        }
    }

    /// The number that a station claims, 0 where it can claim none.
    pub fn claim<G: Gate>(&mut self, tables: &[SlotTable], station: u8, gate: &G) -> u32
        requires here { tables_of self.old ≡ tables.now }
        ensures same { tables_of self.new ≡ tables_of self.old }
        ensures claimed { (settings : Settings) (r : Run) → AreTied settings r self.old
            → station < length (stations r)
            → next_under settings station r (transmitting_at settings station r) ≤ last_number
            → result ≡ next_under settings station r (transmitting_at settings station r) }
        ensures ahead { (settings : Settings) (r : Run) (user : ℕ) → AreTied settings r self.old
            → station < length (stations r)
            → next_under settings station r (transmitting_at settings station r) ≤ last_number
            → AreAhead settings r (events.Claim station user result) self.new }
        // Also after workers claimed beside, when the words may be ahead of the run.
        ensures gained { (settings : Settings) (r : Run) (user : ℕ) → HaveKeptUp settings r self.old
            → AreAllIn self.old → station < length (stations r)
            → HasGot settings station r self.old result
            × KeepAhead settings r (events.Claim station user result) self.new }
        ensures catches_up { (settings : Settings) (r : Run) (user : ℕ)
            → HaveCaughtUp settings r self.old → station < length (stations r)
            → HasGot settings station r self.old result
            × CaughtAhead settings r (events.Claim station user result) self.new }
        ensures all_in { AreAllIn self.old → AreAllIn self.new }
        ensures out { NoMoreOut self.old self.new }
        ensures cards { KeepCards self.old self.new }
    {
        let place = usize::from(station);
        if place < self.controls.len() {
            match self.controls[place].claim(&tables[place], gate) {
                Ok(claim) => claim.pn,
                Err(_) => 0,
            }
        } else {
            0
        }
    }

    // ---- seats

    /// A seat for a worker that claims beside at a station, unless eight are out there.
    pub fn seat(&mut self, tables: &[SlotTable], station: u8) -> Option<WorkerSeat>
        requires here { tables_of self.old ≡ tables.now }
        ensures same { tables_of self.new ≡ tables_of self.old }
        ensures some { IfSome result (WasSeated station self.old self.new) }
        ensures none { IfNone result (self.new ≡ self.old) }
        ensures full { IfNone result (HasNoSeat station self.old) }
        ensures keeps_up { (settings : Settings) (r : Run) → HaveKeptUp settings r self.old
            → HaveKeptUp settings r self.new }
    {
        let place = usize::from(station);
        if place < self.controls.len() {
            self.controls[place].seat(&tables[place])
        } else {
            None
        }
    }

    /// A seat of a station comes back, and its words are told what it did.
    pub fn join(&mut self, tables: &[SlotTable], station: u8, seat: WorkerSeat)
        requires here { tables_of self.old ≡ tables.now }
        requires of_it { slice_get (tables_of self.old) station ≡ Some seat.table }
        ensures same { tables_of self.new ≡ tables_of self.old }
        ensures told { HasJoined station seat self.old self.new }
        ensures keeps_up { (settings : Settings) (r : Run) → HaveKeptUp settings r self.old
            → HaveKeptUp settings r self.new }
    {
        let place = usize::from(station);
        if place < self.controls.len() {
            self.controls[place].join(&tables[place], seat);
        }
    }

    // ---- facts

    /// The words follow facts, the first one first, in a group in which they happened.
    pub fn follow<G: Gate>(&mut self, tables: &[SlotTable], lan: &Lan, facts: &[Fact], gate: &G)
        requires here { tables_of self.old ≡ tables.now }
        ensures same { tables_of self.new ≡ tables_of self.old }
        ensures followed { (settings : Settings) (users : List UserFrame) (r : Run)
            → StandsFor settings users lan.now r
            → Followed settings r facts.now self.old self.new }
        ensures out { NoMoreOut self.old self.new }
    {
        for fact in facts {
            self.follow_one(tables, lan, fact, gate);
        }
    }

    /// The words of its station follow a fact.
    fn follow_one<G: Gate>(&mut self, tables: &[SlotTable], lan: &Lan, fact: &Fact, gate: &G)
        requires here { tables_of self.old ≡ tables.now }
        ensures same { tables_of self.new ≡ tables_of self.old }
        ensures followed { (settings : Settings) (users : List UserFrame) (r : Run)
            → StandsFor settings users lan.now r
            → Followed settings r (fact.now ∷ []) self.old self.new }
        ensures out { NoMoreOut self.old self.new }
    {
        let place = usize::from(fact.place());
        if place < self.controls.len() {
            let card = card_of(lan, fact);
            moved(&mut self.controls[place], &tables[place], fact, card, gate);
        }
    }
}
