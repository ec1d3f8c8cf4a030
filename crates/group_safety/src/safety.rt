//! One use of each packet number, and one key under each identifier.

ghost use Rattle.std.specs.Prelude.{List, Contains, IsTrue, is_some};
ghost use Rattle.lan_base.specs.declared.frame.UserFrame.{UserFrame};
ghost use Rattle.lan_core.specs.declared.settings.Settings.{Settings};
ghost use Rattle.lan_core.specs.Run.{Run};
ghost use Rattle.lan_core.specs.Ledgers.{Claim, claims};
ghost use Rattle.lan_core.specs.Legal.{IsStepped, IsLegal};
ghost use Rattle.lan_core.specs.Fresh.{IsFresh, IsUnforged};
ghost use Rattle.group_safety.specs.Once.{sak_of, sci_of, Once, OneKey, Drawn};

/// Each packet number is used once: no two claims of a run agree in SAK, SCI and number, whatever
/// is lost, late, repeated or foreign, and whoever starts again. Each claim has a SAK and an SCI.
pub fn law_once()
    ensures legal { (settings : Settings) (users : List UserFrame) (r : Run)
        → IsLegal settings users r → IsFresh r → IsUnforged settings r → Once r }
    ensures stepped { (settings : Settings) (users : List UserFrame) (r : Run)
        → IsStepped settings users r → IsFresh r → IsUnforged settings r → Once r }
    ensures known { (settings : Settings) (users : List UserFrame) (r : Run) (c : Claim)
        → IsStepped settings users r → IsFresh r → IsUnforged settings r → Contains (claims r) c
        → IsTrue (is_some (sak_of r c)) × IsTrue (is_some (sci_of r c.station)) }
{}

/// No key identifier names two keys.
pub fn law_one_key()
    ensures legal { (settings : Settings) (users : List UserFrame) (r : Run)
        → IsLegal settings users r → IsFresh r → IsUnforged settings r → OneKey r }
    ensures stepped { (settings : Settings) (users : List UserFrame) (r : Run)
        → IsStepped settings users r → IsFresh r → IsUnforged settings r → OneKey r }
{}

/// Each key that was installed was made in the run, with a SAK that was drawn for it.
pub fn law_drawn()
    ensures legal { (settings : Settings) (users : List UserFrame) (r : Run)
        → IsLegal settings users r → IsFresh r → IsUnforged settings r → Drawn r }
    ensures stepped { (settings : Settings) (users : List UserFrame) (r : Run)
        → IsStepped settings users r → IsFresh r → IsUnforged settings r → Drawn r }
{}
