//! Laws of twin runs.

ghost use Rattle.std.specs.Prelude.{◌≡◌, ◌∷◌, ℕ, List, false, Contains};
ghost use Rattle.lan_base.specs.declared.frame.UserFrame.{UserFrame};
ghost use Rattle.lan_core.specs.declared.settings.Settings.{Settings};
ghost use Rattle.lan_core.specs.Run.{Run, facts_of};
ghost use Rattle.lan_core.specs.Legal.{IsStepped, IsLegal, IsThrifty};
ghost use Rattle.lan_core.specs.Fresh.{IsFresh, IsUnforged};
ghost use Rattle.group_safety.specs.Once.{OneKey};
ghost use Rattle.group_safety.specs.Hitless.{Hitless};
ghost use Rattle.cak_roll.specs.declared.event.GroupNumber.{GroupNumber};
ghost use Rattle.cak_roll.specs.declared.event.GroupNumber.TheVariants.{First, Second};
ghost use Rattle.cak_roll.specs.Both.{AreFresh, OnceOver};
ghost use Rattle.cak_roll.specs.Twin.{Pair, setting_of, Twin, run_of, IsTwinRun};
ghost use Rattle.cak_roll.specs.Twin.{carrier, claimed_in, transmits, merged, TwinHappening, part_of, IsTwinStep};
ghost use Rattle.cak_roll.specs.declared.event.TwinEvent.{TwinEvent};
ghost use Rattle.cak_roll.specs.declared.event.TwinEvent.TheVariants as twins;
ghost use Rattle.cak_roll.specs.Stepping.{Supply};
ghost use Rattle.cak_roll.specs.Unstopped.{IsUnstoppedTwin};
ghost use Rattle.lan_core.specs.declared.fact.Fact.TheVariants as facts;
ghost use Rattle.lan_core.specs.declared.fact.Lack.{Lack};

use group_safety::{law_drawn, law_hitless, law_once, law_one_key};
use lan_core::{law_a_step_keeps_a_run_legal, law_next_numbers_keep_a_run_thrifty};

/// The run of each group in a twin run is legal, thrifty and unforged. It is fresh where those of both
/// groups are together.
pub fn law_group_runs_are_sound()
    ensures legal { (pair : Pair) (users : List UserFrame) (t : Twin) (g : GroupNumber)
        → IsTwinRun pair users t → IsLegal (setting_of pair g) users (run_of g t) }
    ensures stepped { (pair : Pair) (users : List UserFrame) (t : Twin) (g : GroupNumber)
        → IsTwinRun pair users t → IsStepped (setting_of pair g) users (run_of g t) }
    ensures thrifty { (pair : Pair) (users : List UserFrame) (t : Twin) (g : GroupNumber)
        → IsTwinRun pair users t → IsThrifty (setting_of pair g) (run_of g t) }
    ensures unforged { (pair : Pair) (users : List UserFrame) (t : Twin) (g : GroupNumber)
        → IsTwinRun pair users t → IsUnforged (setting_of pair g) (run_of g t) }
    ensures both { (t : Twin) → IsFresh (merged t) → AreFresh (run_of First t) (run_of Second t) }
    ensures fresh { (t : Twin) (g : GroupNumber) → AreFresh (run_of First t) (run_of Second t)
        → IsFresh (run_of g t) }
{
    law_a_step_keeps_a_run_legal();
    law_next_numbers_keep_a_run_thrifty();
}

/// No two claims of two runs together agree in SAK, SCI and packet number, where what both drew
/// differs.
pub fn law_each_packet_number_is_used_once_over_both()
    ensures runs { (settings settings' : Settings) (users users' : List UserFrame) (r r' : Run)
        → IsStepped settings users r → IsStepped settings' users' r' → AreFresh r r'
        → IsUnforged settings r → IsUnforged settings' r' → OnceOver r r' }
    ensures twin { (pair : Pair) (users : List UserFrame) (t : Twin) → IsTwinRun pair users t
        → AreFresh (run_of First t) (run_of Second t) → OnceOver (run_of First t) (run_of Second t) }
{
    law_once();
    law_drawn();
}

/// In the run of each group no key identifier names two keys, and each steady rollover is hitless.
pub fn law_what_holds_in_each_group()
    ensures one_key { (pair : Pair) (users : List UserFrame) (t : Twin) (g : GroupNumber)
        → IsTwinRun pair users t → AreFresh (run_of First t) (run_of Second t) → OneKey (run_of g t) }
    ensures hitless { (pair : Pair) (users : List UserFrame) (t : Twin) (g : GroupNumber)
        → IsTwinRun pair users t → AreFresh (run_of First t) (run_of Second t)
        → Hitless (setting_of pair g) (run_of g t) }
{
    law_one_key();
    law_hitless();
}

/// A station gets no packet number for what it sends only where no key transmits at it, in either
/// group in which it takes part.
pub fn law_a_send_is_refused_only_in_silence()
    ensures number { (pair : Pair) (users : List UserFrame) (t : Twin) (s : ℕ)
        → IsTwinRun pair users t → claimed_in pair (carrier pair s t) s t ≡ 0
        → (transmits pair First s t ≡ false) × (transmits pair Second s t ≡ false) }
    ensures shown { (pair : Pair) (users : List UserFrame) (x : TwinHappening) (t : Twin)
        (g : GroupNumber) (s user place : ℕ) (why : Lack) → IsTwinRun pair users (x ∷ t)
        → x.event ≡ twins.Send s user
        → Contains (facts_of (part_of g x)) (facts.Unclaimed place why)
        → (transmits pair First s t ≡ false) × (transmits pair Second s t ≡ false) }
{}

/// An unstopped event of a twin run is a step of it; and what both groups drew stays fresh.
pub fn law_an_unstopped_twin_event_is_a_step()
    ensures step { (pair : Pair) (users : List UserFrame) (t : Twin) (event : TwinEvent)
        (nth : Supply) (x : TwinHappening) → IsTwinRun pair users t
        → IsUnstoppedTwin pair users t event nth x → IsTwinStep pair users x t }
    ensures fresh { (pair : Pair) (users : List UserFrame) (t : Twin) (event : TwinEvent)
        (nth : Supply) (x : TwinHappening) → IsTwinRun pair users t
        → IsUnstoppedTwin pair users t event nth x → IsFresh (merged t)
        → IsFresh (merged (x ∷ t)) }
{}
