//! The audit of the capture of a run.

ghost use Rattle.std.specs.Prelude.{ℕ, List, Contains, All};
ghost use Rattle.audit_report.specs.Verdicts.{Verdict};
ghost use Rattle.capture_audit.specs.Before.{IsUnwrapped, Unwrapped, frames};
ghost use Rattle.capture_audit.specs.Telling.{IsVerdict};
ghost use Rattle.lan_base.specs.declared.frame.UserFrame.{UserFrame};
ghost use Rattle.lan_core.specs.declared.settings.Settings.{Settings};
ghost use Rattle.lan_core.specs.Fresh.{IsFresh, IsUnforged};
ghost use Rattle.lan_core.specs.Ledgers.{air};
ghost use Rattle.lan_core.specs.Legal.{IsLegal, IsStepped};
ghost use Rattle.lan_core.specs.Run.{Run};
ghost use Rattle.use_notes.specs.declared.frame.RightFrame.{RightFrame};
ghost use Rattle.clean_audits.specs.Captured.{group_ring};
ghost use Rattle.clean_audits.specs.Clean.{AreCaptured, HasCapture, IsClaimed, IsClean, IsSealedOnce};

use gcm_frames::{law_protected_is_longer, law_protected_is_opened, law_protected_is_read};
use key_wrap::law_one_key_for_one_wrap;
use lan_core::law_epochs_count;
use use_notes::law_the_first_reuse_is_the_least_pair;

/// The audit of a run's capture, behind the `group` line of its group, is clean: each MKPDU and each
/// protected frame is right and new, no packet number of a sender is used twice under a key, each
/// identifier names one key, each key one identifier, and no member gives a key with a number below one
/// that it gave before. Whatever is lost, late, repeated or foreign on the
/// way to the stations, and whoever starts again, changes nothing of it.
pub fn law_audit_clean()
    ensures legal { (settings : Settings) (users : List UserFrame) (r : Run) (packets : List Unwrapped)
        (v : Verdict) → IsLegal settings users r → IsFresh r → IsUnforged settings r → IsSealedOnce r
        → AreCaptured (air r) packets → All (IsUnwrapped (group_ring settings)) packets
        → IsVerdict (group_ring settings) packets v → IsClean (group_ring settings) packets v }
    ensures stepped { (settings : Settings) (users : List UserFrame) (r : Run) (packets : List Unwrapped)
        (v : Verdict) → IsStepped settings users r → IsFresh r → IsUnforged settings r → IsSealedOnce r
        → AreCaptured (air r) packets → All (IsUnwrapped (group_ring settings)) packets
        → IsVerdict (group_ring settings) packets v → IsClean (group_ring settings) packets v }
{
    law_epochs_count();
    law_one_key_for_one_wrap();
    law_protected_is_longer();
    law_protected_is_opened();
    law_protected_is_read();
    law_the_first_reuse_is_the_least_pair();
}

/// A frame that the audit of a run's capture finds right is that of a claim: it is right under the SAK of
/// the claim, with the SCI of the station that claimed and the packet number that it got.
pub fn law_right_frames_are_claimed()
    ensures { (settings : Settings) (users : List UserFrame) (r : Run) (packets : List Unwrapped)
        (e : RightFrame) → IsStepped settings users r → IsFresh r → IsUnforged settings r
        → IsSealedOnce r → AreCaptured (air r) packets
        → All (IsUnwrapped (group_ring settings)) packets
        → Contains (frames (group_ring settings) packets) e
        → IsClaimed r (group_ring settings) packets e }
{
    law_epochs_count();
    law_one_key_for_one_wrap();
    law_protected_is_longer();
    law_protected_is_opened();
    law_protected_is_read();
    law_the_first_reuse_is_the_least_pair();
}

/// Each run has a capture: a packet for each frame on the air, and what each MKPDU gives unwrapped.
pub fn law_each_run_has_a_capture()
    ensures { (settings : Settings) (users : List UserFrame) (r : Run)
        → IsStepped settings users r → IsFresh r → IsUnforged settings r → HasCapture settings (air r) }
{
    law_protected_is_longer();
    law_protected_is_opened();
    law_protected_is_read();
}
