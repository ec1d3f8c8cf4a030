//! Laws of whole traces.

ghost use Rattle.std.specs.Prelude.{◌≡◌, ◌⊎◌, ◌≤◌, ◌<◌, ◌^◌, ℕ, Contains, List, length, false, map};
ghost use Rattle.association_slots.specs.Rule.{Around};
ghost use Rattle.association_slots.specs.Views.{ControlAt, count as count_of, claimed};
ghost use Rattle.association_slots.specs.declared.view.View.{View};
ghost use Rattle.lan_core.specs.declared.fact.Fact.TheVariants as facts;
ghost use Rattle.lan_core.specs.declared.fact.Lack.TheVariants.{Exhausted};
ghost use Rattle.lan_core.specs.Run.{facts_of};
ghost use Rattle.lan_core.specs.Ledgers.{claims};
ghost use Rattle.lan_core.specs.Expected.{last_number};
ghost use Rattle.group_safety.specs.Accounts.{numbers_at, shows_at};
ghost use Rattle.station_words.specs.Counting.{times_in};
ghost use Rattle.trace_acts.specs.declared.halt.Halt.{Halt};
ghost use Rattle.trace_acts.specs.declared.halt.Halt.TheVariants as halts;
ghost use Rattle.lan_schedule.specs.declared.commands.Replay.{Replay};
ghost use Rattle.lan_schedule.specs.Races.{Chance};
ghost use Rattle.lan_schedule.specs.World.{World, beginning, count, settings, is_racing};
ghost use Rattle.lan_schedule.specs.Numbers.{shown_next, claimed_number};
ghost use Rattle.lan_schedule.specs.Acts.{Act, Stops, perform, world_of, course};
ghost use Rattle.lan_schedule.specs.Lines.{performed_all, performed_whole};
ghost use Rattle.lan_schedule.specs.Sound.{IsTidy, HasRunNone};
ghost use Rattle.lan_schedule.specs.Standing.{StandsFor};
ghost use Rattle.lan_schedule.specs.Shown.{words_of, HasWords, ShowTheCore};

use station_words::{law_the_words_are_not_behind, law_the_words_show_what_transmits};

/// Whatever chance decides, the world of no line is tidy. Lines that are performed from there leave
/// a tidy world, whether they stop or not, where there are fewer than 2^32 of them and they run no
/// race, and so do those that are all of a trace. What a race leaves is tidy where its workers claimed
/// as they were dealt: that is not chance alone, and so a clause of each call.
pub fn law_lines_leave_a_tidy_world()
    ensures start { (chances : List Chance) → IsTidy (beginning chances) }
    ensures lines { (chances : List Chance) (lines : List (List ℕ)) → length lines < 2 ^ 32
        → HasRunNone (course (performed_all lines) chances)
        → IsTidy (world_of (course (performed_all lines) chances)) }
    ensures calm { (chances : List Chance) (lines : List (List ℕ)) → length lines < 2 ^ 32
        → HasRunNone (course (performed_all lines) chances)
        → (world_of (course (performed_all lines) chances)).kept.raced ≡ false }
    ensures apart { (chances : List Chance) (lines : List (List ℕ)) → length lines < 2 ^ 32
        → is_racing (world_of (course (performed_all lines) chances)).kept.phase ≡ false }
    ensures whole { (chances : List Chance) (lines : List (List ℕ)) → length lines < 2 ^ 32
        → HasRunNone (course (performed_whole lines) chances)
        → let w = world_of (course (performed_whole lines) chances) in
        IsTidy w × (is_racing w.kept.phase ≡ false) }
{}

/// An act stops for a reason of its own: never for want of memory, nor since a recorder failed.
pub fn law_acts_stop_for_their_own_reasons()
    ensures { (act : Act) (w v : World) (halt : Halt) → perform act w ≡ Stops v halt
        → (halt ≡ halts.Memory) ⊎ (halt ≡ halts.WriteFault) → ⊥ }
{}

/// Each station of a replay has words. Between any two steps on them they show the key that
/// transmits there, and its next packet number; after a race the number may be ahead of the next.
pub fn law_the_words_show_the_core()
    ensures many { (w : World) (replay : Replay) → StandsFor w replay
        → length (words_of replay) ≡ count w }
    ensures shown { (w : World) (replay : Replay) (s : ℕ) (control : ControlAt) (words : List ℕ)
        (views : List View) → StandsFor w replay → HasWords replay s control
        → Around control.view words views → ShowTheCore w s words }
{
    law_the_words_show_what_transmits();
    law_the_words_are_not_behind();
}

/// The numbers that a station claimed in a run are those that control was told, each once; and the
/// numbers above 0 that its ticks showed are those that control loaded, in order.
pub fn law_control_was_told_what_the_run_claims()
    ensures told { (w : World) (replay : Replay) (s : ℕ) (control : ControlAt)
        → StandsFor w replay → HasWords replay s control → (epoch pn : ℕ)
        → count_of (claimed epoch pn) control.view.told
        ≡ times_in epoch pn (numbers_at s (claims w.run)) }
    ensures once { (w : World) (replay : Replay) (s : ℕ) (control : ControlAt)
        → StandsFor w replay → HasWords replay s control → (epoch pn : ℕ)
        → times_in epoch pn (numbers_at s (claims w.run)) ≤ 1 }
    ensures shown { (w : World) (replay : Replay) (s : ℕ) (control : ControlAt)
        → StandsFor w replay → HasWords replay s control
        → map (λ seen. seen.next) control.view.loads ≡ shows_at s w.run }
{}

/// Before the first race a station claims the next number, and none of its keys is ever exhausted.
pub fn law_no_key_is_exhausted()
    ensures { (w : World) → IsTidy w → w.kept.raced ≡ false → length w.kept.users < last_number
        → (s : ℕ) → claimed_number (settings w) s w.run ≡ shown_next (settings w) s w.run }
{}

/// No claim of a run finds the key that transmits without a packet number left: in a race or outside, at
/// each world that a call reaches.
pub fn law_no_claim_is_exhausted()
    ensures { (w : World) → IsTidy w → (s epoch : ℕ)
        → Contains (facts_of w.run) (facts.Unclaimed s (Exhausted epoch)) → ⊥ }
{}
