//! Hitless rollover: each frame that is delivered in time meets an association that holds its key.

ghost use Rattle.std.specs.Prelude.{◌≡◌, ◌<◌, ◌+◌, suc, List};
ghost use Rattle.lan_base.specs.declared.frame.UserFrame.{UserFrame};
ghost use Rattle.lan_base.specs.Timers.{retire_time};
ghost use Rattle.lan_core.specs.declared.settings.Settings.{Settings};
ghost use Rattle.lan_core.specs.Run.{Run};
ghost use Rattle.lan_core.specs.Legal.{IsStepped, IsLegal};
ghost use Rattle.lan_core.specs.Fresh.{IsFresh, IsUnforged};
ghost use Rattle.group_safety.specs.Moments.{upto};
ghost use Rattle.group_safety.specs.Rounds.{rounds};
ghost use Rattle.group_safety.specs.Steady.{Rollover, IsKeeper, IsSteady};
ghost use Rattle.group_safety.specs.Time.{Flight, IsFlight, IsFound, HasSaid};
ghost use Rattle.group_safety.specs.Hitless.{Hitless};

/// In every steady rollover, at each moment of a run, a frame that is delivered in time is found:
/// it is answered, by a key that has its association number and its SAK.
pub fn law_hitless()
    ensures legal { (settings : Settings) (users : List UserFrame) (r : Run)
        → IsLegal settings users r → IsFresh r → IsUnforged settings r → Hitless settings r }
    ensures stepped { (settings : Settings) (users : List UserFrame) (r : Run)
        → IsStepped settings users r → IsFresh r → IsUnforged settings r → Hitless settings r }
{}

/// In every steady rollover, any frame under the old key, whoever sent it and whenever it was
/// claimed, is found where it reaches the server after the make, or a keeper after it reported the
/// new key, less than the retire time after the beginning, in rounds.
pub fn law_old_key_is_received()
    ensures { (settings : Settings) (users : List UserFrame) (run : Run)
        (rollover : Rollover) (flight : Flight)
        → IsStepped settings users run → IsFresh run → IsUnforged settings run
        → IsSteady settings run rollover → IsFlight settings run flight
        → flight.key.id ≡ rollover.old_id → rollover.made < flight.delivery
        → HasSaid rollover.server flight.receiver flight.delivery (IsKeeper settings run rollover)
        → rounds rollover.from (upto flight.delivery run)
        < rounds rollover.from (upto (suc rollover.start) run) + retire_time
        → IsFound settings run flight }
{}
