//! Laws of parts of runs.

ghost use Rattle.std.specs.Prelude.{List};
ghost use Rattle.lan_base.specs.declared.frame.UserFrame.{UserFrame};
ghost use Rattle.lan_core.specs.declared.settings.Settings.{Settings};
ghost use Rattle.lan_core.specs.Run.{Run, Happening};
ghost use Rattle.lan_core.specs.Legal.{IsStepped};
ghost use Rattle.lan_core.specs.Parts.{followed_by, without_claims, AreAlike};

/// Claims tell of packet numbers alone: a stepped run tells the same as it would without those of
/// its last part.
pub fn law_claims_tell_packet_numbers_alone()
    ensures { (settings : Settings) (users : List UserFrame) (part : List Happening) (r : Run)
        → IsStepped settings users (followed_by part r)
        → AreAlike settings (followed_by part r) (followed_by (without_claims part) r) }
{}
