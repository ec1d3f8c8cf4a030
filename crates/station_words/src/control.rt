//! The hand that moves the words of one station.

ghost use Rattle.std.specs.Prelude.{◌≡◌, ◌+◌, ◌≤◌, ◌<◌, ℕ, true, Some, IfOk, IfSome, IfNone};
ghost use Rattle.association_slots.specs.Cards.{card_at};
ghost use Rattle.association_slots.specs.Learned.{Learned};
ghost use Rattle.association_slots.specs.Steps.{new_seat, seated, told};
ghost use Rattle.association_slots.specs.Views.{AllIn, free_number};
ghost use Rattle.group_safety.specs.Transmitting.{Carried, installed, begun, ended, may_begin, names};
ghost use Rattle.group_safety.specs.Accounts.{Account, blank, next_now, looked};
ghost use Rattle.group_safety.specs.Accounts.{showing};
ghost use Rattle.lan_core.specs.Expected.{last_number};
ghost use Rattle.station_words.specs.Seats.{is_out};
ghost use Rattle.station_words.specs.Telling.{KeepUp, Tells, CatchUp, IsClaimed, HasGained, of_seats};
ghost use Rattle.station_words.specs.Telling.{sending_of};

use association_slots::{
    Card, Control, Current, SlotTable, WorkerSeat, law_earlier_cards_stay, law_few_numbers_are_lost,
};
use lan_base::AssociationNumber;
use lan_core::INSTALLS_MAX;
use packet_claims::{Claim, Gate, NoClaim, Point, claim_alone, tell};
use std::alloc::{AllocError, Global};
use std::marker::Model;

/// How many keys a station may install.
const CARDS: u16 = INSTALLS_MAX as u16;

/// The hand that moves the words of a station's transmit associations, and gives seats at them to
/// workers. Each call tests before it moves, and where the test fails it does nothing. Contracts see
/// which table it is of, and what control knows.
#[derive(Drop)]
pub struct TransmitControl {
    control: Control,
    /// What the current word shows.
    now: Current,
    /// How many keys were installed.
    cards: u32,
}

impl Model for TransmitControl {
    ghost use Rattle.association_slots.specs.Views.{ControlAt};
    ghost use Rattle.station_words.specs.inside.Kept.{IsKept};

    ghost Value = { ControlAt };

    ghost view = { λ c. c.control };

    ghost invariant = { λ c. IsKept c.control.view c.now c.cards };
}

impl TransmitControl {
    /// A station's words and the hand that moves them: nothing was installed, and nothing
    /// transmits.
    pub fn new(alloc: Global) -> Result<(SlotTable, Self), AllocError>
        ensures here { IfOk result (λ made. made.1.table ≡ made.0) }
        ensures tells { IfOk result (λ made. Tells blank made.1.view) }
    {
        let (table, control) = SlotTable::new(alloc, CARDS, 1)?;
        let words = TransmitControl {
            control,
            now: Current {
                epoch: 0,
                present: false,
                an: AssociationNumber::An0,
            },
            cards: 0,
        };
        Ok((table, words))
    }

    /// A key is installed: its epoch, the next one, has this card.
    pub fn install(&mut self, table: &SlotTable, card: &Card)
        requires here { self.old.table ≡ table.now }
        ensures same { self.new.table ≡ self.old.table }
        ensures tells { (a : Account) (k : Carried) → Tells a self.old.view
            → installed a.carried ≡ Some k → Tells (record a { carried = k }) self.new.view }
        ensures keeps_up { (a : Account) (k : Carried) → KeepUp a self.old.view
            → installed a.carried ≡ Some k → KeepUp (record a { carried = k }) self.new.view }
        ensures catches_up { (a : Account) (k : Carried) → CatchUp a self.old.view
            → installed a.carried ≡ Some k → CatchUp (record a { carried = k }) self.new.view }
        ensures seats { of_seats self.new.view ≡ of_seats self.old.view }
        ensures card { (a : Account) (k : Carried) → KeepUp a self.old.view
            → installed a.carried ≡ Some k → card_at self.new.view k.installs ≡ card.now }
        ensures earlier { (a : Account) (epoch : ℕ) → KeepUp a self.old.view → 0 < epoch
            → epoch ≤ a.carried.installs
            → card_at self.new.view epoch ≡ card_at self.old.view epoch }
    {
        law_earlier_cards_stay();
        if let Ok(epoch) = self.control.card(table, card) {
            self.cards = epoch;
        }
    }

    /// The key of an epoch begins to transmit under its association number.
    pub fn begin<G: Gate>(
        &mut self,
        table: &SlotTable,
        station: u8,
        an: AssociationNumber,
        epoch: u32,
        gate: &G,
    )
        requires here { self.old.table ≡ table.now }
        ensures same { self.new.table ≡ self.old.table }
        ensures tells { (a : Account) (k : Carried) → Tells a self.old.view
            → begun an epoch a.carried ≡ Some k → Tells (record a { carried = k }) self.new.view }
        ensures keeps_up { (a : Account) (k : Carried) → KeepUp a self.old.view
            → begun an epoch a.carried ≡ Some k → KeepUp (record a { carried = k }) self.new.view }
        ensures catches_up { (a : Account) (k : Carried) → CatchUp a self.old.view
            → begun an epoch a.carried ≡ Some k → CatchUp (record a { carried = k }) self.new.view }
        ensures seats { of_seats self.new.view ≡ of_seats self.old.view }
        ensures cards { self.new.view.card_words ≡ self.old.view.card_words }
    {
        let before = self.now;
        if !may_begin(an, epoch, before, self.cards) {
            return;
        }
        self.control.raise(table, an, epoch);
        self.control.point(table, an, epoch);
        self.now = Current {
            epoch,
            present: true,
            an,
        };
        gate.at(Point::Pointed { station });
        if before.present {
            self.control.shut(table, before.an);
        }
    }

    /// The key under an association number is held no more.
    pub fn end<G: Gate>(&mut self, table: &SlotTable, station: u8, an: AssociationNumber, gate: &G)
        requires here { self.old.table ≡ table.now }
        ensures same { self.new.table ≡ self.old.table }
        ensures tells { (a : Account) → Tells a self.old.view
            → Tells (record a { carried = ended an a.carried }) self.new.view }
        ensures keeps_up { (a : Account) → KeepUp a self.old.view
            → KeepUp (record a { carried = ended an a.carried }) self.new.view }
        ensures catches_up { (a : Account) → CatchUp a self.old.view
            → CatchUp (record a { carried = ended an a.carried }) self.new.view }
        ensures seats { of_seats self.new.view ≡ of_seats self.old.view }
        ensures cards { self.new.view.card_words ≡ self.old.view.card_words }
    {
        if !names(self.now, an) {
            return;
        }
        self.control.unpoint(table);
        self.now = Current {
            epoch: self.now.epoch,
            present: false,
            an: AssociationNumber::An0,
        };
        gate.at(Point::Pointed { station });
        self.control.shut(table, an);
    }

    /// The next packet number under the key that transmits, by one load, and 0 where none does.
    /// While seats are out it may be ahead of what control was told, and afterwards by a few numbers
    /// that were lost.
    pub fn next(&mut self, table: &SlotTable) -> u64
        requires here { self.old.table ≡ table.now }
        ensures same { self.new.table ≡ self.old.table }
        ensures next { (a : Account) → Tells a self.old.view → result ≡ next_now a }
        ensures tells { (a : Account) → Tells a self.old.view → Tells (looked a) self.new.view }
        ensures not_below { (a : Account) → KeepUp a self.old.view
            → (next_now a ≤ result) × (next_now a ≡ 0 → result ≡ 0) }
        ensures keeps_up { (a : Account) → KeepUp a self.old.view
            → KeepUp (showing result a) self.new.view }
        ensures catches_up { (a : Account) → CatchUp a self.old.view
            → (result ≤ next_now a + 16) × CatchUp (showing result a) self.new.view }
        ensures points { self.new.view.points ≡ self.old.view.points }
        ensures seats { of_seats self.new.view ≡ of_seats self.old.view }
        ensures cards { self.new.view.card_words ≡ self.old.view.card_words }
    {
        law_few_numbers_are_lost();
        if !self.now.present {
            return 0;
        }
        self.control.next_of(table, self.now.an)
    }

    /// A packet number is claimed by a seat of its own, which is told back.
    pub fn claim<G: Gate>(&mut self, table: &SlotTable, gate: &G) -> Result<Claim, NoClaim>
        requires here { self.old.table ≡ table.now }
        ensures same { self.new.table ≡ self.old.table }
        ensures claimed { (a : Account) → Tells a self.old.view → next_now a ≤ last_number
            → IsClaimed a self.old.view result (λ b. Tells b self.new.view) }
        ensures gained { (a : Account) → KeepUp a self.old.view → AllIn self.old.view
            → HasGained a self.old.view result (λ b. KeepUp b self.new.view) }
        ensures catches_up { (a : Account) → CatchUp a self.old.view
            → HasGained a self.old.view result (λ b. CatchUp b self.new.view) }
        ensures all_in { AllIn self.old.view → AllIn self.new.view }
        // its seat comes back, whatever others are out
        ensures out { (i : ℕ) → is_out self.new.view i ≡ true → is_out self.old.view i ≡ true }
        ensures keeps_up { (a : Account) → KeepUp a self.old.view → KeepUp a self.new.view }
        ensures cards { self.new.view.card_words ≡ self.old.view.card_words }
    {
        if !self.control.has_room() {
            return Err(NoClaim::NoKey {
                after: self.now.epoch,
            });
        }
        claim_alone(table, &mut self.control, gate)
    }

    // ---- seats

    /// A seat for a worker that claims beside, unless eight are out.
    pub fn seat(&mut self, table: &SlotTable) -> Option<WorkerSeat>
        requires here { self.old.table ≡ table.now }
        ensures same { self.new.table ≡ self.old.table }
        ensures some { IfSome result (λ seat.
            (seat ≡ record { table = self.old.table; view = new_seat self.old.view })
            × (self.new ≡ record self.old { view = seated self.old.view })) }
        ensures none { IfNone result ((8 < free_number self.old.view) × (self.new ≡ self.old)) }
        ensures keeps_up { (a : Account) → KeepUp a self.old.view → KeepUp a self.new.view }
    {
        if self.control.has_room() {
            Some(self.control.seat(table))
        } else {
            None
        }
    }

    /// A seat comes back, and control is told what it did.
    pub fn join(&mut self, table: &SlotTable, seat: WorkerSeat)
        requires here { (self.old.table ≡ table.now) × (seat.table ≡ table.now) }
        ensures same { self.new.table ≡ self.old.table }
        ensures told { self.new ≡ record self.old { view = told self.old.view seat.view } }
        ensures learned { Learned self.new.view }
        ensures keeps_up { (a : Account) → KeepUp a self.old.view → KeepUp a self.new.view }
    {
        tell(table, seat, &mut self.control);
    }
}

/// Whether the key of an epoch may begin, where this transmits and so many keys were installed.
fn may_begin(an: AssociationNumber, epoch: u32, now: Current, installs: u32) -> bool
    ensures { result ≡ may_begin an epoch (sending_of now) installs }
{
    now.epoch < epoch && epoch <= installs && !names(now, an)
}

/// Whether a key is present under an association number.
fn names(now: Current, an: AssociationNumber) -> bool
    ensures { result ≡ names (sending_of now) an }
{
    now.present && now.an.number() == an.number()
}
