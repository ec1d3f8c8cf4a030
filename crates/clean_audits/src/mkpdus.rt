//! The MKPDUs of a run as packets.

ghost use Rattle.std.specs.Prelude.{◌≡◌, false, List, Contains};
ghost use Rattle.capture_packets.specs.Packets.{Seen};
ghost use Rattle.lan_base.specs.declared.frame.UserFrame.{UserFrame};
ghost use Rattle.lan_core.specs.declared.settings.Settings.{Settings};
ghost use Rattle.lan_core.specs.Fresh.{IsFresh, IsUnforged};
ghost use Rattle.lan_core.specs.Ledgers.{Frame, air};
ghost use Rattle.lan_core.specs.Legal.{IsStepped};
ghost use Rattle.lan_core.specs.Run.{Run};
ghost use Rattle.clean_audits.specs.Captured.{IsPacketOf, IsRightMkpdu};

use key_wrap::law_one_key_for_one_wrap;

/// Each MKPDU that a run puts on the air is, as a packet, right under the `group` line of its group, and
/// what it gives is a key that the run made: its SAK, under its identifier and association number.
pub fn law_mkpdus_are_right()
    ensures { (settings : Settings) (users : List UserFrame) (r : Run) (frame : Frame) (packet : Seen)
        → IsStepped settings users r → IsFresh r → IsUnforged settings r
        → Contains (air r) frame → frame.sec ≡ false → IsPacketOf frame packet
        → IsRightMkpdu settings r packet }
{
    law_one_key_for_one_wrap();
}
