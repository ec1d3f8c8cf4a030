//! A claim on one thread.
ghost use Rattle.std.specs.Prelude.{◌≡◌, ◌^◌, ◌<◌, ◌≤◌, true, false, MatchResult, Err};
ghost use Rattle.association_slots.specs.Learned.{Learned};
ghost use Rattle.association_slots.specs.Steps.{seated, new_seat, told};
ghost use Rattle.association_slots.specs.Views.{current, free_number, AllIn};
ghost use Rattle.association_slots.specs.declared.view.SeatView.{SeatView};
ghost use Rattle.packet_claims.specs.Alone.{next_now, IsNextClaim};
ghost use Rattle.packet_claims.specs.Claims.{Did};
ghost use Rattle.packet_claims.specs.declared.answers.NoClaim.TheVariants.{NoKey, Exhausted};

use crate::answers::{Claim, NoClaim};
use crate::claiming::{claim, tell};
use crate::gate::Gate;
use association_slots::{Control, SlotTable};

/// One claim by a seat of its own, which comes back. Where no other seat is out, it is the next
/// packet number of the current epoch.
pub fn claim_alone<G: Gate>(
    table: &SlotTable,
    control: &mut Control,
    gate: &G,
) -> Result<Claim, NoClaim>
    requires here { control.old.table ≡ table.now }
    requires room { free_number control.old.view ≤ 8 }
    ensures same { control.new.table ≡ control.old.table }
    ensures did { (v : SeatView) × (control.new.view ≡ told (seated control.old.view) v)
        × Did (new_seat control.old.view) v result }
    ensures learned { Learned control.new.view }
    ensures all_in { AllIn control.old.view → AllIn control.new.view }
    ensures next { AllIn control.old.view → (current control.old.view).present ≡ true
        → next_now control.old.view < 2 ^ 32
        → MatchResult result (IsNextClaim control.old.view control.new.view) (λ _. ⊥) }
    ensures exhausted { AllIn control.old.view → (current control.old.view).present ≡ true
        → 2 ^ 32 ≤ next_now control.old.view
        → result ≡ Err (Exhausted (current control.old.view).epoch) }
    ensures no_key { (current control.old.view).present ≡ false
        → result ≡ Err (NoKey (current control.old.view).epoch) }
{
    let mut seat = control.seat(table);
    let answer = claim(table, &mut seat, gate);
    tell(table, seat, control);
    answer
}
