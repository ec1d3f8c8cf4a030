//! The hand that gives keys to the slots.
ghost use Rattle.std.specs.Prelude.{◌≡◌, ◌≢◌, ◌↔◌, ◌+◌, ◌*◌, ◌<◌, ◌≤◌, true, false, [], ◌++◌, nat_le, length, IsErr, IfOk, OnOk, OnErr};
ghost use Rattle.association_slots.specs.Cards.{card_words, cards_given, card_at, most_cards};
ghost use Rattle.association_slots.specs.Learned.{Learned, IsNext};
ghost use Rattle.association_slots.specs.Steps.{at_first, wrote, raised, closed, looked, pointed, seated, new_seat, told};
ghost use Rattle.association_slots.specs.Views.{control_of, slot, current, absent_after, present_at, top, free, free_number, IsOpen};
ghost use Rattle.association_slots.specs.declared.view.View.TheVariants.{Control as «control»};

use crate::card::Card;
use crate::rule::{ComeBack, GoOut, Learn, Look, Place, PointAt, Raise, Shut, Write};
use crate::table::SlotTable;
use crate::words::{FLAG, absent_word, next_of, open_word, present_word};
use crate::worker_seat::WorkerSeat;
use lan_base::AssociationNumber;
use std::marker::Model;

/// How many seats may be out.
const SEATS: usize = 8;

/// Each epoch of the table has its card already.
#[derive(Clone, Copy, Debug, PartialEq, Eq)]
pub struct Cards;

/// The one hand that gives cards to epochs, raises slots, points at them and shuts them. Contracts
/// see its table, and what it knows.
#[derive(Drop)]
pub struct Control {
    place: Place,
    first: u32,
    limit: u16,
    given: u16,
    last: u32,
    out: [bool; SEATS],
    overshot: [u32; SEATS],
}

impl Model for Control {
    ghost use Rattle.association_slots.specs.Views.{ControlAt, control_of};
    ghost use Rattle.association_slots.specs.inside.Kept.{ControlKept};

    ghost Value = { ControlAt };

    ghost view = { λ c. record { table = c.place.table_id; view = control_of c.place.me.0 } };

    ghost invariant = { λ c. ControlKept c.place.table_id c.place.me c.first c.limit c.given c.last
        c.out c.overshot };
}

impl Control {
    /// The control of a table at its start.
    pub(crate) fn first(place: Place, first: u32, limit: u16) -> Control
        requires at_first { place.me ≡ («control» (at_first first limit), []) }
        requires limit { (limit ≤ most_cards) × (place.table_id.words ≡ 5 + 5 * limit) }
        ensures { (result.table ≡ place.table_id) × (result.view ≡ at_first first limit) }
    {
        Control {
            place,
            first,
            limit,
            given: 0,
            last: 0,
            out: [false; SEATS],
            overshot: [0; SEATS],
        }
    }

    /// Gives the next epoch its card, and answers that epoch, from 1. It refuses exactly where each
    /// epoch of the table has one; then nothing changes.
    pub fn card(&mut self, table: &SlotTable, card: &Card) -> Result<u32, Cards>
        requires here { self.old.table ≡ table.now }
        ensures same { self.new.table ≡ self.old.table }
        ensures refused { IsErr result ↔ (cards_given self.old.view ≡ self.old.view.limit) }
        ensures epoch { IfOk result (λ epoch. epoch ≡ cards_given self.old.view + 1) }
        ensures view { OnOk result (self.new.view
            ≡ record self.old.view {
              card_words = self.old.view.card_words ++ card_words card.now;
            }) }
        ensures card { IfOk result (λ epoch. card_at self.new.view epoch ≡ card.now) }
        ensures learned { OnOk result (Learned self.new.view) }
        ensures unchanged { OnErr result (self.new ≡ self.old) }
    {
        if self.given == self.limit {
            return Err(Cards);
        }
        let from = 5 + 5 * usize::from(self.given);
        write_card(table, &mut self.place, from, &card.words());
        self.given += 1;
        Ok(u32::from(self.given))
    }

    /// Opens a shut slot with an epoch that has a card and is above every raised one.
    pub fn raise(&mut self, table: &SlotTable, an: AssociationNumber, epoch: u32)
        requires here { self.old.table ≡ table.now }
        requires shut { (slot self.old.view an).shut ≡ true }
        requires card { epoch ≤ cards_given self.old.view }
        requires above { top self.old.view.raises < epoch }
        ensures view { self.new ≡ record self.old { view = raised self.old.view an epoch } }
        ensures learned { Learned self.new.view }
    {
        let word = open_word(epoch, self.first);
        table
            .shared()
            .swap::<Raise>(&mut self.place, usize::from(an.number()), word);
    }

    /// Makes the epoch of an open slot present, which is above every epoch pointed at before.
    pub fn point(&mut self, table: &SlotTable, an: AssociationNumber, epoch: u32)
        requires here { self.old.table ≡ table.now }
        requires open { IsOpen self.old.view an epoch }
        requires above { (current self.old.view).epoch < epoch }
        ensures view { self.new
            ≡ record self.old { view = pointed self.old.view (present_at an epoch) } }
        ensures learned { Learned self.new.view }
    {
        self.last = epoch;
        let word = present_word(self.last, an);
        table.shared().store::<PointAt>(&mut self.place, 4, word);
    }

    /// Nothing is present from now on.
    pub fn unpoint(&mut self, table: &SlotTable)
        requires here { self.old.table ≡ table.now }
        ensures view { self.new ≡ record self.old {
          view = pointed self.old.view (absent_after (current self.old.view).epoch);
        } }
        ensures learned { Learned self.new.view }
    {
        let word = absent_word(self.last);
        table.shared().store::<PointAt>(&mut self.place, 4, word);
    }

    /// Shuts an open slot that the current word does not name, and answers the next number that it
    /// showed then. Every number claimed under its epoch, then or later, is below it.
    pub fn shut(&mut self, table: &SlotTable, an: AssociationNumber) -> u64
        requires here { self.old.table ≡ table.now }
        requires open { (slot self.old.view an).shut ≡ false }
        requires away { (current self.old.view).present ≡ true → (current self.old.view).an ≢ an }
        ensures view { self.new ≡ record self.old { view = closed self.old.view an result } }
        ensures seen { (slot self.old.view an).seen ≤ result }
        ensures next { IsNext self.old.view an (slot self.old.view an).epoch result }
        ensures learned { Learned self.new.view }
    {
        let word = table
            .shared()
            .fetch_or::<Shut>(&mut self.place, usize::from(an.number()), FLAG);
        next_of(word)
    }

    /// The next number of an open slot, by one load.
    pub fn next_of(&mut self, table: &SlotTable, an: AssociationNumber) -> u64
        requires here { self.old.table ≡ table.now }
        requires open { (slot self.old.view an).shut ≡ false }
        ensures view { self.new ≡ record self.old { view = looked self.old.view an result } }
        ensures seen { (slot self.old.view an).seen ≤ result }
        ensures next { IsNext self.old.view an (slot self.old.view an).epoch result }
        ensures learned { Learned self.new.view }
    {
        let word = table
            .shared()
            .load::<Look>(&mut self.place, usize::from(an.number()));
        next_of(word)
    }

    /// Whether fewer than eight seats are out.
    pub fn has_room(&self) -> bool
        ensures { result ≡ nat_le (free_number self.now.view) 8 }
    {
        free_place(&self.out) < SEATS
    }

    /// A seat of the first number that isn't out. Fewer than eight may be out.
    pub fn seat(&mut self, table: &SlotTable) -> WorkerSeat
        requires here { self.old.table ≡ table.now }
        requires room { free_number self.old.view ≤ 8 }
        ensures control { self.new ≡ record self.old { view = seated self.old.view } }
        ensures seat { result ≡ record { table = self.old.table; view = new_seat self.old.view } }
        ensures before { Learned self.old.view }
        ensures learned { Learned self.new.view }
    {
        table.shared().load::<Learn>(&mut self.place, 4);
        let free = free_place(&self.out);
        let place = table.shared().split_seat::<GoOut>(&mut self.place);
        self.out[free] = true;
        WorkerSeat::new(place, free as u8 + 1, self.overshot[free])
    }

    /// Takes a seat back, and learns what it did.
    pub fn join(&mut self, table: &SlotTable, seat: WorkerSeat)
        requires here { (self.old.table ≡ table.now) × (seat.table ≡ table.now) }
        ensures view { self.new ≡ record self.old { view = told self.old.view seat.view } }
        ensures learned { Learned self.new.view }
    {
        let number = usize::from(seat.number()) - 1;
        let overshot = seat.overshot();
        let place = seat.into_place();
        table.shared().join_seat::<ComeBack>(&mut self.place, place);
        self.out[number] = false;
        self.overshot[number] = self.overshot[number].max(overshot);
        table.shared().load::<Learn>(&mut self.place, 4);
    }
}

/// Stores the five words of a card, the first of which is the word `from`.
fn write_card(table: &SlotTable, place: &mut Place, from: usize, words: &[u64; 5])
    requires here { place.old.table_id ≡ table.now }
    requires control { place.old.me ≡ («control» (control_of place.old.me.0), []) }
    requires room { (from ≡ 5 + length (control_of place.old.me.0).card_words)
        × (from ≤ 5 * (control_of place.old.me.0).limit) × (from ≤ 20480)
        × (table.now.words ≡ 5 + 5 * (control_of place.old.me.0).limit) }
    ensures { (place.new.table_id ≡ place.old.table_id)
        × (place.new.me ≡ (
          «control» (record (control_of place.old.me.0) {
            card_words = (control_of place.old.me.0).card_words ++ words.now;
          }),
          [],
        )) × Learned (control_of place.new.me.0) }
{
    let [a, b, c, d, flags] = *words;
    write(table, place, from, a);
    write(table, place, from + 1, b);
    write(table, place, from + 2, c);
    write(table, place, from + 3, d);
    write(table, place, from + 4, flags);
}

/// Stores the next card word.
fn write(table: &SlotTable, place: &mut Place, word: usize, held: u64)
    requires here { place.old.table_id ≡ table.now }
    requires control { place.old.me ≡ («control» (control_of place.old.me.0), []) }
    requires room { (word ≡ 5 + length (control_of place.old.me.0).card_words)
        × (word < 5 + 5 * (control_of place.old.me.0).limit)
        × (table.now.words ≡ 5 + 5 * (control_of place.old.me.0).limit) }
    ensures { (place.new.table_id ≡ place.old.table_id)
        × (place.new.me ≡ («control» (wrote (control_of place.old.me.0) held), []))
        × Learned (control_of place.new.me.0) }
{
    table.shared().store::<Write>(place, word, held);
}

/// The place of the first seat that isn't out.
fn free_place(out: &[bool; SEATS]) -> usize
    ensures { result ≡ free out.now }
{
    let mut place = 0;
    while place < SEATS && out[place] {
        place += 1;
    }
    place
}
