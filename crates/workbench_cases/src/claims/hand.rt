//! A seat that one thread claims from.

ghost use Rattle.std.specs.Prelude.{◌≡◌};

use association_slots::{Control, SlotTable, WorkerSeat};
use packet_claims::{OpenGate, claim};

/// A table, and the control that gives out its seats.
#[derive(Drop)]
pub struct Desk<'a> {
    table: &'a SlotTable,
    control: Control,
    ghost here: { control.table ≡ table.now },
}

impl<'a> Desk<'a> {
    /// The desk of a table.
    pub fn new(table: &'a SlotTable, control: Control) -> Desk<'a>
        requires { control.table ≡ table.now }
    {
        Desk { table, control }
    }

    /// A seat, unless eight are out.
    pub fn sit(&mut self) -> Option<Hand<'a>> {
        if !self.control.has_room() {
            return None;
        }
        Some(Hand {
            table: self.table,
            seat: self.control.seat(self.table),
            claimed: 0,
        })
    }
}

/// A seat at a table, and how many numbers it claimed.
#[derive(Drop)]
pub struct Hand<'a> {
    table: &'a SlotTable,
    seat: WorkerSeat,
    claimed: u32,
    ghost here: { seat.table ≡ table.now },
}

impl<'a> Hand<'a> {
    /// Claims so many numbers, or fewer where a claim is refused.
    pub fn fill(&mut self, count: u32) {
        for _ in 0..count {
            self.claim_one();
        }
    }

    /// Claims one number, unless that is refused.
    fn claim_one(&mut self) {
        if claim(self.table, &mut self.seat, &OpenGate).is_ok() {
            self.claimed = self.claimed.saturating_add(1);
        }
    }

    /// How many numbers were claimed.
    pub fn claimed(&self) -> u64 {
        u64::from(self.claimed)
    }
}
