//! Tables, workers with seats at them, and what they work for.

ghost use Rattle.std.specs.Prelude.{◌≡◌, ◌≤◌, length, true};
ghost use Rattle.association_slots.specs.Cards.{cards_given, most_cards};
ghost use Rattle.association_slots.specs.Steps.{seated};
ghost use Rattle.association_slots.specs.Views.{IsOpen, current, slot, top};
ghost use Rattle.lan_base.specs.Ranges.{IsUserData};
ghost use Rattle.lan_base.specs.declared.association_number.AssociationNumber.TheVariants.{An1, An2};

use aes_block::Secret;
use association_slots::{Card, Control, SlotTable};
use data_workers::{Log, Sender, Worker, work};
use lan_base::{AssociationNumber, Mac, Octets, Sci, UserFrame};
use packet_claims::Gate;
use std::alloc::Global;
use std::process::Abort;

/// The card that comes first at each table.
pub const CARD: Card = Card {
    sak: Secret::S128([7; 16]),
    conf: true,
};

/// The user data of everybody.
pub const BODY: [u8; 64] = [0x5a; 64];

/// The SCI that a station sends under.
pub fn sci(station: u8) -> Sci {
    Sci([2, 0, 0, 0, 0, station, 0, 1])
}

/// A worker, and the table of its seat.
#[derive(Drop)]
pub struct Hand<'a> {
    table: &'a SlotTable,
    worker: Worker,
    ghost here: { worker.seat.table ≡ table.now },
}

impl<'a> Hand<'a> {
    /// A worker with a seat at this table.
    pub fn of(table: &'a SlotTable, worker: Worker) -> Hand<'a>
        requires { worker.seat.table ≡ table.now }
    {
        Hand { table, worker }
    }

    /// Does every job, with a gate.
    pub fn work<G: Gate>(&mut self, gate: &G) {
        work(self.table, &mut self.worker, gate);
    }

    /// What came of its jobs.
    pub fn finish(self) -> Log {
        let (_, log) = self.worker.finish();
        log
    }

    /// What comes of every job, with a gate.
    pub fn log<G: Gate>(self, gate: &G) -> Log {
        let mut hand = self;
        hand.work(gate);
        hand.finish()
    }
}

/// A table, and the control of it.
#[derive(Drop)]
pub struct Desk<'a> {
    pub table: &'a SlotTable,
    pub control: Control,
    ghost here: { control.table ≡ table.now },
}

impl<'a> Desk<'a> {
    /// A worker of a station, with so many jobs. Eight seats may be out.
    pub fn hire(&mut self, rt: &impl Abort, alloc: Global, station: u8, jobs: u32) -> Hand<'a> {
        let worker = hired(rt, alloc, station, self.table, &mut self.control, jobs);
        Hand::of(self.table, worker)
    }

    /// Nothing is present from now on.
    pub fn unpoint(&mut self) {
        self.control.unpoint(self.table);
    }
}

/// A table whose first card's epoch is current under AN 1, with room for so many cards and this
/// first number.
pub fn opened(rt: &impl Abort, alloc: Global, cards: u16, first: u32) -> (SlotTable, Control)
    requires { (1 ≤ cards) × (cards ≤ most_cards) × (1 ≤ first) }
    ensures here { result.1.table ≡ result.0 }
    ensures four { length result.1.view.slots ≡ 4 }
    ensures first { IsOpen result.1.view An1 1 }
    ensures second { (slot result.1.view An2).shut ≡ true }
    ensures only { (cards_given result.1.view ≡ 1) × (top result.1.view.raises ≡ 1)
        × ((current result.1.view).epoch ≡ 1) }
{
    let (table, mut control) = SlotTable::new(alloc, cards, first).expect(rt, "a table");
    let epoch = control.card(&table, &CARD).ok().expect(rt, "a card");
    control.raise(&table, AssociationNumber::An1, epoch);
    control.point(&table, AssociationNumber::An1, epoch);
    (table, control)
}

/// A station's sender of one user's frame.
fn sender(rt: &impl Abort, alloc: Global, station: u8) -> Sender
    ensures station { result.station ≡ station }
    ensures user { IsUserData result.user.body }
{
    let user = UserFrame {
        destination: Mac([0xff; 6]),
        body: Octets::from_slice(alloc, &BODY).expect(rt, "memory"),
    };
    Sender {
        station,
        sci: sci(station),
        user,
    }
}

/// A worker of a station, with so many jobs. Eight seats may be out.
pub fn hired(
    rt: &impl Abort,
    alloc: Global,
    station: u8,
    table: &SlotTable,
    control: &mut Control,
    jobs: u32,
) -> Worker
    requires { control.old.table ≡ table.now }
    ensures control { control.new ≡ record control.old { view = seated control.old.view } }
    ensures station { result.sender.station ≡ station }
    ensures seat { result.seat.table ≡ table.now }
{
    let sender = sender(rt, alloc, station);
    assert!(rt; control.has_room());
    let seat = control.seat(table);
    let worker = Worker::new(alloc, sender, seat, jobs);
    worker.ok().expect(rt, "memory")
}
