//! A seat from which numbers are claimed.
ghost use Rattle.std.specs.Prelude.{ℕ, ◌≡◌, ◌≢◌, ◌+◌, ◌*◌, ◌<◌, ◌≤◌, max, true, false, [], Some};
ghost use Rattle.association_slots.specs.Cards.{Knows, most_cards};
ghost use Rattle.association_slots.specs.Steps.{loaded, did_read};
ghost use Rattle.association_slots.specs.inside.Kept.{read_five};
ghost use Rattle.association_slots.specs.Told.{Sees, IsAdded, ReadsMore};
ghost use Rattle.association_slots.specs.Views.{In, HasLoaded, seat_of, greatest, absent_after};
ghost use Rattle.association_slots.specs.declared.view.Mark.{Mark};
ghost use Rattle.association_slots.specs.declared.view.View.TheVariants.{Seat as «seat»};

use crate::card::Card;
use crate::rule::{Load, Place, Plus, Read};
use crate::table::SlotTable;
use crate::view::{Added, Current};
use crate::words::{answer, shown_by};
use lan_base::AssociationNumber;
use std::marker::Model;

/// A card that a seat has read, and its words.
#[derive(Clone, Copy)]
pub(crate) struct Known {
    epoch: u32,
    words: [u64; 5],
    card: Card,
}

/// A seat at a table, from which one thread claims numbers. Contracts see its table, and what it
/// knows.
#[derive(Drop)]
pub struct WorkerSeat {
    place: Place,
    number: u8,
    shown: Current,
    overshot: u32,
    known: Option<Known>,
}

impl Model for WorkerSeat {
    ghost use Rattle.association_slots.specs.Views.{SeatAt, seat_of};
    ghost use Rattle.association_slots.specs.inside.Kept.{SeatKept};

    ghost Value = { SeatAt };

    ghost view = { λ s. record { table = s.place.table_id; view = seat_of s.place.me.0 } };

    ghost invariant = { λ s. SeatKept s.place.table_id s.place.me s.number s.shown s.overshot
        s.known };
}

impl WorkerSeat {
    /// A seat that has done nothing yet. The greatest epoch that a seat of its number overshot
    /// comes with it.
    pub(crate) fn new(place: Place, number: u8, overshot: u32) -> WorkerSeat
        requires new { (place.me ≡ («seat» (seat_of place.me.0), []))
            × ((seat_of place.me.0).shown ≡ absent_after 0) × ((seat_of place.me.0).loaded ≡ []) }
        requires number { (number ≡ (seat_of place.me.0).number) × (0 < number) × (number < 9) }
        requires limit { ((seat_of place.me.0).limit ≤ most_cards)
            × (place.table_id.words ≡ 5 + 5 * (seat_of place.me.0).limit) }
        requires overshot { (overshot ≡ greatest (seat_of place.me.0).over)
            × ((m : Mark) → In m (seat_of place.me.0).over → m.seat ≡ (seat_of place.me.0).number) }
        ensures { result ≡ record { table = place.table_id; view = seat_of place.me.0 } }
    {
        WorkerSeat {
            place,
            number,
            shown: Current {
                epoch: 0,
                present: false,
                an: AssociationNumber::An0,
            },
            overshot,
            known: None,
        }
    }

    /// Gives up the seat for its place at the table.
    pub(crate) fn into_place(self) -> Place
        ensures place { (result.table_id ≡ self.table) × (result.me ≡ («seat» self.view, [])) }
        ensures number { (0 < self.view.number) × (self.view.number < 9) }
        ensures own { (m : Mark) → In m self.view.over → m.seat ≡ self.view.number }
    {
        let WorkerSeat {
            place,
            number: _,
            shown: _,
            overshot: _,
            known: _,
        } = self;
        place
    }

    /// The seat's number, from 1 to 8.
    pub fn number(&self) -> u8
        ensures number { result ≡ self.now.view.number }
        ensures range { (0 < result) × (result < 9) }
    {
        self.number
    }

    /// The greatest epoch that a seat of this number overshot, 0 for none.
    pub fn overshot(&self) -> u32
        ensures { result ≡ greatest self.now.view.over }
    {
        self.overshot
    }

    /// What the current word shows.
    pub fn load(&mut self, table: &SlotTable) -> Current
        requires here { self.old.table ≡ table.now }
        ensures view { self.new ≡ record self.old { view = loaded self.old.view result } }
        ensures sees { Sees self.old.view result }
    {
        let word = table.shared().load::<Load>(&mut self.place, 4);
        self.shown = shown_by(word);
        self.shown
    }

    /// Adds one to the slot that the last load named. That load found a key present, no addition
    /// came since then, and no seat of this number overshot its epoch.
    pub fn add(&mut self, table: &SlotTable) -> Added
        requires here { self.old.table ≡ table.now }
        requires loaded { (self.old.view.shown.present ≡ true) × (self.old.view.added ≡ false) }
        requires not_over { (m : Mark) → In m self.old.view.over
            → m.epoch ≢ self.old.view.shown.epoch }
        ensures same { self.new.table ≡ self.old.table }
        ensures view { IsAdded self.old.view result self.new.view }
    {
        let shown = self.shown;
        let word = table
            .shared()
            .fetch_add::<Plus>(&mut self.place, usize::from(shown.an.number()), 1);
        let added = answer(shown.epoch, word);
        if let Added::Over = added {
            self.overshot = self.overshot.max(shown.epoch);
        }
        added
    }

    /// The card of an epoch that the seat loaded as present. Its words are loaded, unless it is the
    /// card that this call answered last.
    pub fn known(&mut self, table: &SlotTable, epoch: u32) -> Card
        requires here { self.old.table ≡ table.now }
        requires loaded { HasLoaded self.old.view epoch }
        ensures same { self.new.table ≡ self.old.table }
        ensures view { ReadsMore self.old.view self.new.view }
        ensures knows { Knows self.new.view.reads epoch result }
    {
        if let Some(known) = self.known
            && known.epoch == epoch
        {
            return known.card;
        }
        let words = read_card(table, &mut self.place, epoch);
        let card = Card::of_words(&words);
        self.known = Some(Known { epoch, words, card });
        card
    }
}

/// Loads the five words of the card of an epoch.
fn read_card(table: &SlotTable, place: &mut Place, epoch: u32) -> [u64; 5]
    requires here { place.old.table_id ≡ table.now }
    requires seat { place.old.me ≡ («seat» (seat_of place.old.me.0), []) }
    requires loaded { HasLoaded (seat_of place.old.me.0) epoch }
    requires room { (epoch < 4097) × (5 * epoch + 4 < table.now.words) }
    ensures same { place.new.table_id ≡ place.old.table_id }
    ensures view { place.new.me ≡ («seat» (read_five (seat_of place.old.me.0) epoch result), []) }
{
    let from = 5 * epoch as usize;
    [
        read(table, place, from),
        read(table, place, from + 1),
        read(table, place, from + 2),
        read(table, place, from + 3),
        read(table, place, from + 4),
    ]
}

/// Loads a card word.
fn read(table: &SlotTable, place: &mut Place, word: usize) -> u64
    requires here { (place.old.table_id ≡ table.now) × (word < table.now.words) }
    requires seat { place.old.me ≡ («seat» (seat_of place.old.me.0), []) }
    requires loaded { (e i : ℕ) × (word ≡ 5 * e + i) × (i < 5)
        × HasLoaded (seat_of place.old.me.0) e }
    ensures same { place.new.table_id ≡ place.old.table_id }
    ensures view { place.new.me ≡ («seat» (did_read (seat_of place.old.me.0) word result), []) }
{
    table.shared().load::<Read>(place, word)
}
