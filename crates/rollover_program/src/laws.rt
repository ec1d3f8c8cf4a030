//! What holds of every run that lines make.

ghost use Rattle.std.specs.Prelude.{◌≡◌, ℕ, false, List};
ghost use Rattle.lan_schedule.specs.Acts.{course, world_of};
ghost use Rattle.lan_schedule.specs.Races.{Chance};
ghost use Rattle.lan_schedule.specs.Sound.{HasRunNone, IsTidy};
ghost use Rattle.lan_schedule.specs.World.{World, is_racing};
ghost use Rattle.twin_schedule.specs.World.{World as TwinWorld};
ghost use Rattle.twin_schedule.specs.Sound.{IsTidy as IsTidyTwin};
ghost use Rattle.replay.specs.Runs.{within};
ghost use Rattle.replay.specs.OneGroup.{one_group};
ghost use Rattle.rollover_program.specs.Headline.{IsPromised};
ghost use Rattle.rollover_program.specs.TwoGroups.{ArePromised};

use group_safety::{law_hitless, law_once, law_one_key};
use lan_schedule::law_lines_leave_a_tidy_world;
use text_lines::law_lines_are_few;
use transcript::law_a_run_is_cut_into_its_events;
use twin_schedule::{
    law_both_groups_of_tidy_worlds_are_sound, law_groups_of_tidy_worlds_are_sound,
};

/// All that is promised holds of the run of each tidy world outside a race: one use of each packet
/// number, one key under each identifier, and hitless rollovers; and its facts tell its events.
pub fn law_tidy_runs_are_promised()
    ensures { (w : World) → IsTidy w → is_racing w.kept.phase ≡ false → IsPromised w }
{
    law_once();
    law_one_key();
    law_hitless();
    law_a_run_is_cut_into_its_events();
}

/// All that is promised holds of the run of every text that runs no race, whatever chance decides: of
/// what its lines perform that end within the limit of the input. Of a text with races it holds by
/// the clauses of the call that performs it.
pub fn law_each_text_is_promised()
    ensures { (text : List ℕ) (chances : List Chance)
        → HasRunNone (course (within one_group text) chances)
        → IsPromised (world_of (course (within one_group text) chances)) }
{
    law_lines_are_few();
    law_lines_leave_a_tidy_world();
    law_tidy_runs_are_promised();
}

/// All that is promised of two groups holds in each tidy world of them: one use of each packet number
/// over both, one key under each identifier and hitless rollovers in each, no number refused to a
/// station at which a key transmits; and each group's facts tell its events.
pub fn law_tidy_worlds_of_two_groups_are_promised()
    ensures { (w : TwinWorld) → IsTidyTwin w → ArePromised w }
{
    law_groups_of_tidy_worlds_are_sound();
    law_both_groups_of_tidy_worlds_are_sound();
    law_a_run_is_cut_into_its_events();
}
