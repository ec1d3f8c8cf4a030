//! What is judged of the transcripts of runs.

ghost use Rattle.std.specs.Prelude.{ℕ, ◌≡◌, [], List, None};
ghost use Rattle.std.specs.List.{All};
ghost use Rattle.lan_base.specs.declared.frame.UserFrame.{UserFrame};
ghost use Rattle.lan_core.specs.declared.settings.Settings.{Settings};
ghost use Rattle.lan_core.specs.Fresh.{IsFresh, IsUnforged};
ghost use Rattle.lan_core.specs.Legal.{IsLegal, IsStepped};
ghost use Rattle.lan_core.specs.Places.{names};
ghost use Rattle.lan_core.specs.Run.{Run, facts_of};
ghost use Rattle.text_lines.specs.Texts.{lines_of};
ghost use Rattle.transcript.specs.Rendering.{transcript, IsFact};
ghost use Rattle.transcript_reader.specs.Facts.{Known, nothing};
ghost use Rattle.transcript_check.specs.declared.fault.CheckFault.{CheckFault};
ghost use Rattle.least_pairs.specs.Pairs.{IsJudged};
ghost use Rattle.transcript_check.specs.Judged.{BreaksOnce, BreaksOneKey};
ghost use Rattle.transcript_check.specs.Standing.{AreTaken};
ghost use Rattle.transcript_check.specs.Transcripts.{AreRead, IsRefused};

use group_safety::{law_facts_are_typed, law_once, law_one_key};
use lan_core::{
    law_epochs_count, law_facts_have_their_stations, law_fronts_of_fresh_runs_are_fresh,
    law_fronts_of_stepped_runs_are_stepped, law_fronts_of_unforged_runs_are_unforged,
    law_stations_have_their_names,
};
use transcript::{
    law_more_names_change_no_line, law_no_fact_ends_a_line, law_typed_facts_have_lines,
};
use transcript_reader::{law_a_line_tells_one_fact, law_one_group_tells_what_it_reads};

/// Of the transcript of every run that is legal, fresh and unforged, no line is refused, and no pair of
/// its facts breaks what is judged. A run has at most 16 stations, so that each of them is named.
pub fn law_clean()
    ensures lines { (settings : Settings) (users : List UserFrame) (r : Run)
        → IsLegal settings users r → IsFresh r → IsUnforged settings r
        → (known : Known) × (known.names.first ≡ names r)
        × AreTaken nothing [] (lines_of (transcript (names r) (facts_of r))) known (facts_of r) }
    ensures once { (settings : Settings) (users : List UserFrame) (r : Run)
        → IsLegal settings users r → IsFresh r → IsUnforged settings r
        → IsJudged (BreaksOnce (facts_of r)) None }
    ensures one_key { (settings : Settings) (users : List UserFrame) (r : Run)
        → IsLegal settings users r → IsFresh r → IsUnforged settings r
        → IsJudged (BreaksOneKey (facts_of r)) None }
{
    law_facts_are_typed();
    law_once();
    law_one_key();
    law_epochs_count();
    law_facts_have_their_stations();
    law_fronts_of_fresh_runs_are_fresh();
    law_fronts_of_stepped_runs_are_stepped();
    law_fronts_of_unforged_runs_are_unforged();
    law_stations_have_their_names();
    law_more_names_change_no_line();
    law_no_fact_ends_a_line();
    law_typed_facts_have_lines();
    law_one_group_tells_what_it_reads();
}

/// At most one line of a transcript is the first that is refused, for one reason, and then not all lines
/// are taken: so whoever refuses a transcript by this definition names the same line, and the same
/// reason.
pub fn law_one_line_is_refused()
    ensures one { (lines : List (List ℕ)) (number again : ℕ) (why other : CheckFault)
        → IsRefused lines number why → IsRefused lines again other
        → (number ≡ again) × (why ≡ other) }
    ensures none { (lines : List (List ℕ)) (number : ℕ) (why : CheckFault)
        → IsRefused lines number why → AreRead lines → ⊥ }
{
    law_a_line_tells_one_fact();
}

/// Each fact of a stepped run has a line under the names of its stations, so that the laws of texts
/// and of events apply to its transcript.
pub fn law_every_fact_has_a_line()
    ensures { (settings : Settings) (users : List UserFrame) (r : Run) → IsStepped settings users r
        → All (IsFact (names r)) (facts_of r) }
{
    law_facts_are_typed();
    law_facts_have_their_stations();
    law_typed_facts_have_lines();
}
