//! Laws of the facts of a run as lines: they have lines, which tell the run's events.

ghost use Rattle.std.specs.Prelude.{ℕ, ◌≡◌, ◌<◌, ◌≤◌, ◌++◌, List, length};
ghost use Rattle.std.specs.List.{All};
ghost use Rattle.lan_base.specs.declared.frame.UserFrame.{UserFrame};
ghost use Rattle.lan_core.specs.declared.fact.Fact.{Fact};
ghost use Rattle.lan_core.specs.declared.settings.Settings.{Settings};
ghost use Rattle.lan_core.specs.Legal.{IsStepped};
ghost use Rattle.lan_core.specs.Run.{Run, facts_of, place};
ghost use Rattle.lan_core.specs.TypedFacts.{IsTypedFact};
ghost use Rattle.transcript.specs.Cut.{cut, IsEvent};
ghost use Rattle.transcript.specs.Events.{events_of};
ghost use Rattle.transcript.specs.Rendering.{IsFact, line};

/// A fact with its fields in their types has a line, under names among which is that of its
/// station.
pub fn law_typed_facts_have_lines()
    ensures { (names : List (List ℕ)) (fact : Fact) → IsTypedFact fact → place fact < length names
        → length names ≤ 256 → IsFact names fact }
{}

/// More names at the end change nothing of the line of a fact.
pub fn law_more_names_change_no_line()
    ensures fact { (names more : List (List ℕ)) (fact : Fact) → IsFact names fact
        → IsFact (names ++ more) fact }
    ensures same { (names more : List (List ℕ)) (fact : Fact) → IsFact names fact
        → line (names ++ more) fact ≡ line names fact }
{}

/// The facts of each event of a stepped run are those of one event: so a run is what its own
/// transcript is cut into.
pub fn law_a_run_is_cut_into_its_events()
    ensures events { (settings : Settings) (users : List UserFrame) (r : Run)
        → IsStepped settings users r → All IsEvent (events_of r) }
    ensures whole { (settings : Settings) (users : List UserFrame) (r : Run)
        → IsStepped settings users r → cut (facts_of r) ≡ events_of r }
{}
