//! A key that control replaces between two jobs of a worker.

ghost use Rattle.std.specs.Prelude.{◌≡◌, false, true};
ghost use Rattle.association_slots.specs.Cards.{cards_given};
ghost use Rattle.association_slots.specs.Views.{current, slot, top};
ghost use Rattle.lan_base.specs.declared.association_number.AssociationNumber.TheVariants.{An1, An2};

use crate::desk::{CARD, Hand, hired, opened, sci};
use crate::frames::{RECEIVER, accepted};
use aes_block::Secret;
use association_slots::{Card, Control, SlotTable};
use data_workers::Entry;
use lan_base::{AssociationNumber, Protected};
use packet_claims::{Gate, Point};
use rx_slots::RxSlots;
use std::alloc::Global;
use std::cell::RefCell;
use std::process::Abort;

/// The card that comes second.
const NEXT: Card = Card {
    sak: Secret::S256([9; 32]),
    conf: true,
};

/// Control of a table whose first epoch is current under AN 1, and of which the slot of AN 2 was
/// never raised.
#[derive(Drop)]
pub struct Replacing<'a> {
    pub table: &'a SlotTable,
    pub control: Control,
    ghost here: { control.table ≡ table.now },
    ghost first: { ((slot control.view An1).shut ≡ false) × ((slot control.view An1).epoch ≡ 1) },
    ghost second: { (slot control.view An2).shut ≡ true },
    ghost only: { (cards_given control.view ≡ 1) × (top control.view.raises ≡ 1)
        × ((current control.view).epoch ≡ 1) },
}

impl<'a> Replacing<'a> {
    /// A worker of a station, with so many jobs. Eight seats may be out.
    pub fn hire(&mut self, rt: &impl Abort, alloc: Global, station: u8, jobs: u32) -> Hand<'a> {
        let worker = hired(rt, alloc, station, self.table, &mut self.control, jobs);
        Hand::of(self.table, worker)
    }

    /// Gives the second card, raises AN 2 with its epoch, points at it, and shuts AN 1.
    fn replace(self) {
        let Replacing { table, mut control } = self;
        if let Ok(epoch) = control.card(table, &NEXT) {
            control.raise(table, AssociationNumber::An2, epoch);
            control.point(table, AssociationNumber::An2, epoch);
            control.shut(table, AssociationNumber::An1);
        }
    }
}

/// A gate at which the key is replaced once a seat has its first claim.
#[derive(Drop)]
pub struct ReplacingGate<'a> {
    ready: RefCell<Option<Replacing<'a>>>,
}

impl<'a> ReplacingGate<'a> {
    /// The gate at which this key is replaced.
    pub fn of(replacing: Replacing<'a>) -> ReplacingGate<'a> {
        ReplacingGate {
            ready: RefCell::new(Some(replacing)),
        }
    }
}

impl Gate for ReplacingGate<'_> {
    fn at(&self, point: Point) {
        if !matches!(point, Point::Taken { .. }) {
            return;
        }
        if let Ok(mut ready) = self.ready.try_borrow_mut()
            && let Some(ready) = ready.take()
        {
            ready.replace();
        }
    }
}

/// What a frame is protected under.
#[derive(Clone, Copy, Debug, PartialEq, Eq)]
struct Under {
    an: AssociationNumber,
    epoch: u32,
    pn: u32,
}

impl Under {
    /// What this frame is protected under.
    fn of(frame: &Protected) -> Under {
        Under {
            an: frame.an,
            epoch: frame.epoch,
            pn: frame.pn,
        }
    }
}

/// The frames of three jobs, of which the first comes before the key is replaced.
const FRAMES: [Under; 3] = [
    Under {
        an: AssociationNumber::An1,
        epoch: 1,
        pn: 1,
    },
    Under {
        an: AssociationNumber::An2,
        epoch: 2,
        pn: 1,
    },
    Under {
        an: AssociationNumber::An2,
        epoch: 2,
        pn: 2,
    },
];

#[test]
fn protects_under_the_key_that_a_claim_shows(rt: HostRuntime) {
    let (table, control) = opened(&rt, rt.alloc(), 2, 1);
    let mut replacing = Replacing {
        table: &table,
        control,
    };
    let hand = replacing.hire(&rt, rt.alloc(), 0, 3);
    let log = hand.log(&ReplacingGate::of(replacing));
    let mut slots = RxSlots::new(rt.alloc(), sci(RECEIVER), 1);
    slots.install(AssociationNumber::An1, &CARD.sak);
    slots.install(AssociationNumber::An2, &NEXT.sak);
    assert_eq!(rt; log.len(), FRAMES.len());
    for (entry, under) in log.as_slice().iter().zip(&FRAMES) {
        let Entry::Taken(frame) = entry else {
            assert!(rt; false);
            continue;
        };
        assert_eq!(rt; Under::of(frame), *under);
        assert_eq!(rt; accepted(&rt, &mut slots, frame), under.pn);
    }
}
