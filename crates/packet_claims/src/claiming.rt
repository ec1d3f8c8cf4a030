//! A claim in any schedule.
ghost use Rattle.std.specs.Prelude.{◌≡◌, ℕ, Err, IfOk};
ghost use Rattle.association_slots.specs.Learned.{Learned};
ghost use Rattle.association_slots.specs.Steps.{told};
ghost use Rattle.packet_claims.specs.Claims.{IsClaim, IsNoKey, IsExhausted};
ghost use Rattle.packet_claims.specs.declared.answers.NoClaim.TheVariants.{NoKey, Exhausted};

use crate::answers::{Claim, NoClaim};
use crate::gate::{Gate, Point};
use association_slots::{Added, Control, SlotTable, WorkerSeat};

/// Claims one packet number of the epoch that is current. A number is lost, and the claim starts
/// again, where the epoch was gone when the slot was reached; each new start finds a greater epoch
/// or none.
pub fn claim<G: Gate>(table: &SlotTable, seat: &mut WorkerSeat, gate: &G) -> Result<Claim, NoClaim>
    requires here { seat.old.table ≡ table.now }
    ensures same { seat.new.table ≡ seat.old.table }
    ensures claim { IfOk result
        (λ k. IsClaim seat.old.view seat.new.view k.an k.epoch k.pn k.card) }
    ensures no_key { (after : ℕ) → result ≡ Err (NoKey after)
        → IsNoKey seat.old.view seat.new.view after }
    ensures exhausted { (epoch : ℕ) → result ≡ Err (Exhausted epoch)
        → IsExhausted seat.old.view seat.new.view epoch }
{
    let number = seat.number();
    let mut tried = 0;
    loop {
        let now = seat.load(table);
        if !now.present {
            return Err(NoClaim::NoKey { after: now.epoch });
        }
        if now.epoch <= seat.overshot() {
            return Err(NoClaim::Exhausted { epoch: now.epoch });
        }
        gate.at(Point::Loaded { seat: number });
        match seat.add(table) {
            Added::Number { pn } => {
                let card = seat.known(table, now.epoch);
                gate.at(Point::Taken { seat: number });
                return Ok(Claim {
                    an: now.an,
                    epoch: now.epoch,
                    pn,
                    card,
                });
            }
            Added::Over => return Err(NoClaim::Exhausted { epoch: now.epoch }),
            Added::Gone => tried = now.epoch,
        }
    }
}

/// Gives a seat back, and control learns its claims.
pub fn tell(table: &SlotTable, seat: WorkerSeat, control: &mut Control)
    requires here { (control.old.table ≡ table.now) × (seat.table ≡ table.now) }
    ensures view { control.new ≡ record control.old { view = told control.old.view seat.view } }
    ensures learned { Learned control.new.view }
{
    control.join(table, seat);
}
