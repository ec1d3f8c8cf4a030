//! Laws of what the facts of a run tell.

ghost use Rattle.std.specs.Prelude.{◌≡◌, ◌∷◌, [], ℕ, List, length, All};
ghost use Rattle.lan_base.specs.declared.address.Mi.{Mi};
ghost use Rattle.lan_base.specs.declared.address.Sci.{Sci};
ghost use Rattle.lan_base.specs.declared.frame.UserFrame.{UserFrame};
ghost use Rattle.lan_base.specs.declared.name.Name.{Name};
ghost use Rattle.lan_base.specs.Differing.{AllDiffer};
ghost use Rattle.lan_base.specs.Name.{IsName};
ghost use Rattle.lan_core.specs.declared.event.Event.TheVariants as events;
ghost use Rattle.lan_core.specs.declared.fact.Fact.{Fact};
ghost use Rattle.lan_core.specs.declared.fact.Fact.TheVariants as facts;
ghost use Rattle.lan_core.specs.declared.settings.Settings.{Settings};
ghost use Rattle.lan_core.specs.Run.{Run, Happening, happened, stations, facts_of};
ghost use Rattle.lan_core.specs.Ledgers.{installs};
ghost use Rattle.lan_core.specs.Counted.{AreCounted, LivesCount};
ghost use Rattle.lan_core.specs.Legal.{IsStep, IsStepped};
ghost use Rattle.lan_core.specs.Places.{names, ArePlaced};

/// The epochs of a station count its installs, over all its lives, from 1 on: so no station
/// installs two keys under one epoch.
pub fn law_epochs_count()
    ensures counted { (settings : Settings) (users : List UserFrame) (r : Run)
        → IsStepped settings users r → AreCounted (installs r) }
    ensures lives { (settings : Settings) (users : List UserFrame) (r : Run)
        → IsStepped settings users r → LivesCount settings r }
{}

/// Each fact of a step speaks of a station that is there then, and so does each fact of a stepped
/// run. A start shows the life of the station that comes next, and nothing else.
pub fn law_facts_have_their_stations()
    ensures step { (settings : Settings) (users : List UserFrame) (x : Happening) (r : Run)
        → IsStep settings users x r → ArePlaced (x ∷ r) x.facts }
    ensures all { (settings : Settings) (users : List UserFrame) (r : Run)
        → IsStepped settings users r → ArePlaced r (facts_of r) }
    ensures start { (settings : Settings) (users : List UserFrame) (name : Name) (sci : Sci)
        (priority : ℕ) (shown : List Fact) (r : Run)
        → IsStep settings users (happened (events.Start name sci priority) shown) r
        → (mi : Mi) × (shown ≡ facts.Life (length (stations r)) mi ∷ []) }
{}

/// The stations of a stepped run have names, each another.
pub fn law_stations_have_their_names()
    ensures { (settings : Settings) (users : List UserFrame) (r : Run) → IsStepped settings users r
        → All IsName (names r) × AllDiffer (names r) }
{}
