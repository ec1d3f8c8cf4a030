//! Where a claim passes its gate: before each addition and behind each claim, with its own number.

ghost use Rattle.std.specs.Prelude.{◌≡◌};

use crate::desk::opened;
use association_slots::{Control, SlotTable, WorkerSeat};
use packet_claims::{Gate, NoClaim, OpenGate, Point, claim};
use std::alloc::Global;
use std::cell::RefCell;
use std::process::Abort;

/// A seat, and its table.
#[derive(Drop)]
struct Hand<'a> {
    table: &'a SlotTable,
    seat: WorkerSeat,
    ghost here: { seat.table ≡ table.now },
}

impl Hand<'_> {
    /// Claims the next number of the epoch that is current.
    fn claim<G: Gate>(&mut self, gate: &G) -> Result<u32, NoClaim> {
        claim(self.table, &mut self.seat, gate).map(|claim| claim.pn)
    }
}

/// A further seat at a table.
fn sit<'a>(rt: &impl Abort, table: &'a SlotTable, control: &mut Control) -> Hand<'a>
    requires { control.old.table ≡ table.now }
    ensures { control.new.table ≡ table.now }
{
    assert!(rt; control.has_room());
    Hand {
        table,
        seat: control.seat(table),
    }
}

/// What stood at a passing of a gate, and what another seat claimed there.
#[derive(Clone, Copy, Debug, PartialEq, Eq)]
struct Passing {
    point: Point,
    other: Result<u32, NoClaim>,
}

/// Another seat, and what it claimed at the passings of a gate.
#[derive(Drop)]
struct Watch<'a> {
    hand: Hand<'a>,
    passings: Vec<Passing>,
}

impl Watch<'_> {
    /// Claims from the other seat, and writes down what it was given.
    fn look(&mut self, point: Point) {
        let other = self.hand.claim(&OpenGate);
        self.passings.push(Passing { point, other }).ok();
    }
}

/// A gate at which another seat claims a number: so what stands before an addition and what stands
/// behind it can be told by the numbers.
#[derive(Drop)]
struct WatchGate<'a> {
    watch: RefCell<Watch<'a>>,
}

impl Gate for WatchGate<'_> {
    fn at(&self, point: Point) {
        if let Ok(mut watch) = self.watch.try_borrow_mut() {
            let watch = &mut *watch;
            watch.look(point);
        }
    }
}

/// Claims of the seats 1 and 3 over a gate at which seat 2 claims.
struct Case {
    name: &'static str,
    first: u32,
    answers: [Result<u32, NoClaim>; 2],
    passings: &'static [Passing],
}

/// Each number that a seat claims stands between two of the other, where it is not the last one.
const CASES: [Case; 3] = [
    Case {
        name: "numbers",
        first: 1,
        answers: [Ok(2), Ok(5)],
        passings: &[
            Passing {
                point: Point::Loaded { seat: 1 },
                other: Ok(1),
            },
            Passing {
                point: Point::Taken { seat: 1 },
                other: Ok(3),
            },
            Passing {
                point: Point::Loaded { seat: 3 },
                other: Ok(4),
            },
            Passing {
                point: Point::Taken { seat: 3 },
                other: Ok(6),
            },
        ],
    },
    Case {
        name: "one number behind the first passing",
        first: 4_294_967_294,
        answers: [Ok(4_294_967_295), Err(NoClaim::Exhausted { epoch: 1 })],
        passings: &[
            Passing {
                point: Point::Loaded { seat: 1 },
                other: Ok(4_294_967_294),
            },
            Passing {
                point: Point::Taken { seat: 1 },
                other: Err(NoClaim::Exhausted { epoch: 1 }),
            },
            Passing {
                point: Point::Loaded { seat: 3 },
                other: Err(NoClaim::Exhausted { epoch: 1 }),
            },
        ],
    },
    Case {
        name: "no number behind the first passing",
        first: 4_294_967_295,
        answers: [
            Err(NoClaim::Exhausted { epoch: 1 }),
            Err(NoClaim::Exhausted { epoch: 1 }),
        ],
        passings: &[
            Passing {
                point: Point::Loaded { seat: 1 },
                other: Ok(4_294_967_295),
            },
            Passing {
                point: Point::Loaded { seat: 3 },
                other: Err(NoClaim::Exhausted { epoch: 1 }),
            },
        ],
    },
];

impl<'a> WatchGate<'a> {
    /// A gate at which this seat claims.
    fn of(alloc: Global, hand: Hand<'a>) -> WatchGate<'a> {
        let passings = Vec::new(alloc);
        let watch = RefCell::new(Watch { hand, passings });
        WatchGate { watch }
    }
}

/// One of the passings of a gate, in their order.
fn passed_at(gate: &WatchGate, place: usize) -> Option<Passing> {
    match gate.watch.try_borrow() {
        Ok(watch) => watch.passings.get(place).copied(),
        Err(_) => None,
    }
}

/// The seats claim, and pass their gate, as the case says.
fn passes(rt: &impl Abort, alloc: Global, case: &Case) {
    let (table, mut control) = opened(rt, alloc, 1, case.first.max(1));
    let mut one = sit(rt, &table, &mut control);
    let gate = WatchGate::of(alloc, sit(rt, &table, &mut control));
    let mut three = sit(rt, &table, &mut control);
    let answers = [one.claim(&gate), three.claim(&gate)];
    assert_eq!(rt; answers, case.answers, "{}", case.name);
    for place in 0..5usize {
        let wanted = case.passings.get(place).copied();
        assert_eq!(rt; passed_at(&gate, place), wanted, "{}", case.name);
    }
}

#[test]
fn passes_its_gate_before_each_addition_and_behind_each_claim(rt: HostRuntime) {
    for case in &CASES {
        passes(&rt, rt.alloc(), case);
    }
}
