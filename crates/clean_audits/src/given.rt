//! A key is given before it is used.

ghost use Rattle.std.specs.Prelude.{ℕ, ◌++◌, ◌∷◌, List, Contains};
ghost use Rattle.lan_base.specs.declared.association_number.AssociationNumber.{AssociationNumber};
ghost use Rattle.lan_base.specs.declared.frame.UserFrame.{UserFrame};
ghost use Rattle.lan_core.specs.declared.settings.Settings.{Settings};
ghost use Rattle.lan_core.specs.Claims.{a_claim};
ghost use Rattle.lan_core.specs.Fresh.{IsFresh, IsUnforged};
ghost use Rattle.lan_core.specs.Ledgers.{Install, installs};
ghost use Rattle.lan_core.specs.Legal.{IsStepped};
ghost use Rattle.lan_core.specs.Run.{Run};
ghost use Rattle.clean_audits.specs.Given.{HasGivenKey, IsGiven};

/// Each key that a station installs is given on the air in an MKPDU, under the identifier, the
/// association number and with the SAK with which it was installed; and before a packet number is
/// claimed, the key of its epoch was installed, and a frame that gives it stands on the air.
pub fn law_a_key_is_given_before_it_is_used()
    ensures installed { (settings : Settings) (users : List UserFrame) (r : Run) (i : Install)
        → IsStepped settings users r → IsFresh r → IsUnforged settings r → Contains (installs r) i
        → IsGiven settings r i }
    ensures claimed { (settings : Settings) (users : List UserFrame) (later front : Run)
        (s user pn : ℕ) (an : AssociationNumber) (epoch : ℕ)
        → let r = later ++ a_claim s user an epoch pn ∷ front in
        IsStepped settings users r → IsFresh r → IsUnforged settings r
        → HasGivenKey settings front s an epoch }
{}
