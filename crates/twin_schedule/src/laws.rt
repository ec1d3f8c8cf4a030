//! Laws of the worlds that lines make.

ghost use Rattle.std.specs.Prelude.{◌≡◌, ◌⊎◌, ◌++◌, ◌∷◌, ℕ, false, Contains};
ghost use Rattle.lan_core.specs.Run.{facts_of};
ghost use Rattle.lan_core.specs.Legal.{IsLegal, IsThrifty};
ghost use Rattle.lan_core.specs.Fresh.{IsUnforged};
ghost use Rattle.lan_core.specs.declared.fact.Fact.TheVariants.{Unclaimed};
ghost use Rattle.lan_core.specs.declared.fact.Lack.{Lack};
ghost use Rattle.group_safety.specs.Hitless.{Hitless};
ghost use Rattle.group_safety.specs.Once.{OneKey};
ghost use Rattle.cak_roll.specs.declared.event.GroupNumber.{GroupNumber};
ghost use Rattle.cak_roll.specs.declared.event.GroupNumber.TheVariants.{First, Second};
ghost use Rattle.cak_roll.specs.declared.event.TwinEvent.TheVariants.{Send};
ghost use Rattle.cak_roll.specs.Both.{OnceOver};
ghost use Rattle.cak_roll.specs.Twin.{part_of, run_of, setting_of, transmits, Twin, TwinHappening};
ghost use Rattle.trace_acts.specs.declared.halt.Halt.{Halt};
ghost use Rattle.trace_acts.specs.declared.halt.Halt.TheVariants as halts;
ghost use Rattle.twin_schedule.specs.World.{World, beginning, pair_of};
ghost use Rattle.twin_schedule.specs.Acts.{Act, Stops, perform};
ghost use Rattle.twin_schedule.specs.Sound.{IsTidy};

use cak_roll::{
    law_a_send_is_refused_only_in_silence, law_each_packet_number_is_used_once_over_both,
    law_group_runs_are_sound, law_what_holds_in_each_group,
};

/// The world of no line is tidy. In each tidy world the run of each group is legal, thrifty and
/// unforged, no key identifier names two keys there, and each steady rollover is hitless.
pub fn law_groups_of_tidy_worlds_are_sound()
    ensures start { IsTidy beginning }
    ensures legal { (w : World) (g : GroupNumber) → IsTidy w
        → IsLegal (setting_of (pair_of w) g) w.kept.users (run_of g w.run) }
    ensures thrifty { (w : World) (g : GroupNumber) → IsTidy w
        → IsThrifty (setting_of (pair_of w) g) (run_of g w.run) }
    ensures unforged { (w : World) (g : GroupNumber) → IsTidy w
        → IsUnforged (setting_of (pair_of w) g) (run_of g w.run) }
    ensures one_key { (w : World) (g : GroupNumber) → IsTidy w → OneKey (run_of g w.run) }
    ensures hitless { (w : World) (g : GroupNumber) → IsTidy w
        → Hitless (setting_of (pair_of w) g) (run_of g w.run) }
{
    law_group_runs_are_sound();
    law_what_holds_in_each_group();
}

/// In a tidy world no two claims of both groups agree in SAK, SCI and packet number, and a station
/// got no number for what it sent only where no key transmitted at it in either group.
pub fn law_both_groups_of_tidy_worlds_are_sound()
    ensures once { (w : World) → IsTidy w → OnceOver (run_of First w.run) (run_of Second w.run) }
    ensures refused { (w : World) (later t : Twin) (x : TwinHappening) (g : GroupNumber)
        (s user place : ℕ) (why : Lack) → IsTidy w → w.run ≡ later ++ x ∷ t
        → x.event ≡ Send s user → Contains (facts_of (part_of g x)) (Unclaimed place why)
        → (transmits (pair_of w) First s t ≡ false) × (transmits (pair_of w) Second s t ≡ false) }
{
    law_group_runs_are_sound();
    law_each_packet_number_is_used_once_over_both();
    law_a_send_is_refused_only_in_silence();
}

/// An act stops for a reason of its own: never for want of memory, nor since a recorder failed, nor
/// at a forged frame, since nothing is injected.
pub fn law_acts_stop_for_their_own_reasons()
    ensures own { (act : Act) (w v : World) (halt : Halt) → perform act w ≡ Stops v halt
        → (halt ≡ halts.Memory) ⊎ (halt ≡ halts.WriteFault) → ⊥ }
    ensures unforged { (act : Act) (w v : World) (line : ℕ)
        → perform act w ≡ Stops v (halts.Forged line) → ⊥ }
{}
