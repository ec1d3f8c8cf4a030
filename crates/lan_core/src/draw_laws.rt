//! Laws of what events draw, and of an event beside another run: values may be drawn for several
//! runs together.

ghost use Rattle.std.specs.Prelude.{◌≡◌, ◌⊎◌, ◌<◌, ◌==◌, ◌∷◌, if◌then◌else◌, ℕ, List, Option, Some, None};
ghost use Rattle.lan_base.specs.declared.address.Mi.{Mi};
ghost use Rattle.lan_base.specs.declared.frame.UserFrame.{UserFrame};
ghost use Rattle.lan_base.specs.declared.suite.Suite.{Suite};
ghost use Rattle.lan_base.specs.Suites.{sak_draws};
ghost use Rattle.aes_block.specs.declared.secret.Secret.{Secret};
ghost use Rattle.lan_core.specs.declared.event.Event.{Event};
ghost use Rattle.lan_core.specs.declared.event.Event.TheVariants as events;
ghost use Rattle.lan_core.specs.declared.fact.Fact.{Fact};
ghost use Rattle.lan_core.specs.declared.settings.Settings.{Settings};
ghost use Rattle.lan_core.specs.Run.{Run, Happening, happened};
ghost use Rattle.lan_core.specs.Lives.{drawn_mi};
ghost use Rattle.lan_core.specs.Expected.{Drawn, drawn_from, expected};
ghost use Rattle.lan_core.specs.Order.{IsWithin};
ghost use Rattle.lan_core.specs.Legal.{IsStep};
ghost use Rattle.lan_core.specs.Fresh.{IsFresh};
ghost use Rattle.lan_core.specs.Stops.{draws_needed, sak_of_tick, stop_of_draw, passed};
ghost use Rattle.lan_core.specs.Standing.{Numbers, AreDrawn};
ghost use Rattle.lan_core.specs.Noting.{MiIsNoted, SakIsNoted};
ghost use Rattle.lan_core.specs.Suited.{mi_by, sak_by, AreDrawnWell};

/// What an event shows of draws is what its supply gave: a member identifier at a start and at a
/// restart, and a key at a tick that needs draws.
pub fn law_what_an_event_draws()
    ensures mi { (settings : Settings) (users : List UserFrame) (r : Run) (event : Event)
        (drawn : Drawn) (shown : List Fact)
        → expected settings users r event drawn ≡ Some shown
        → drawn_mi shown ≡ mi_by event drawn }
    ensures sak { (settings : Settings) (users : List UserFrame) (r : Run) (event : Event)
        (drawn : Drawn) (shown : List Fact)
        → expected settings users r event drawn ≡ Some shown
        → sak_of_tick shown event
        ≡ (if draws_needed settings r event == 0 then None else sak_by event drawn) }
{}

/// A tick takes no draw, or those of one key of the suite.
pub fn law_a_tick_draws_one_key_or_nothing()
    ensures { (settings : Settings) (r : Run) (s next : ℕ)
        → (draws_needed settings r (events.Tick s next) ≡ 0)
        ⊎ (draws_needed settings r (events.Tick s next) ≡ sak_draws settings.suite) }
{}

/// An event shows the same by any two supplies that agree on the draws that it needs.
pub fn law_only_needed_draws_count()
    ensures { (settings : Settings) (users : List UserFrame) (r : Run) (event : Event)
        (nth other : ℕ → Option (List ℕ))
        → ((place : ℕ) → place < draws_needed settings r event → nth place ≡ other place)
        → expected settings users r event (drawn_from settings.suite nth)
        ≡ expected settings users r event (drawn_from settings.suite other) }
{}

/// A table of draws that follows what an event drew is that of the run with the event.
pub fn law_what_is_noted_is_drawn()
    ensures mi { (suite : Suite) (r : Run) (old new : Numbers) (x : Happening) (mi : Mi)
        → AreDrawn suite r old → drawn_mi x.facts ≡ Some mi
        → sak_of_tick x.facts x.event ≡ None → MiIsNoted old new mi → AreDrawn suite (x ∷ r) new }
    ensures sak { (suite : Suite) (r : Run) (old new : Numbers) (x : Happening) (sak : Secret)
        → AreDrawn suite r old → drawn_mi x.facts ≡ None
        → sak_of_tick x.facts x.event ≡ Some sak → SakIsNoted (sak_draws suite) old new sak
        → AreDrawn suite (x ∷ r) new }
    ensures none { (suite : Suite) (r : Run) (drawn : Numbers) (x : Happening)
        → AreDrawn suite r drawn → drawn_mi x.facts ≡ None → sak_of_tick x.facts x.event ≡ None
        → AreDrawn suite (x ∷ r) drawn }
{}

/// A step of one run may stand behind the events of another, as where both runs draw from one supply:
/// the whole is drawn well, and it stays fresh where the step repeats nothing that was drawn there.
pub fn law_a_step_stays_fresh_beside_another_run()
    ensures fresh { (settings : Settings) (users : List UserFrame) (x : Happening) (r other : Run)
        → IsStep settings users x r → AreDrawnWell settings other
        → stop_of_draw settings.suite other x ≡ None → IsFresh other → IsFresh (x ∷ other) }
    ensures well { (settings : Settings) (users : List UserFrame) (x : Happening) (r other : Run)
        → IsStep settings users x r → AreDrawnWell settings other → AreDrawnWell settings (x ∷ other) }
{}

/// A restart passes no limit.
pub fn law_a_restart_passes_no_limit()
    ensures { (settings : Settings) (users : List UserFrame) (r : Run) (s : ℕ) (drawn : Drawn)
        (shown : List Fact) → IsWithin r
        → expected settings users r (events.Restart s) drawn ≡ Some shown
        → passed (happened (events.Restart s) shown ∷ r) ≡ None }
{}
