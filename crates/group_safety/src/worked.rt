//! Two rollovers of three stations, worked out: in one a frame is in time and too late, in the
//! other a station misses the flag.

ghost use Rattle.std.specs.Prelude.{ℕ};
ghost use Rattle.peer_lists.specs.Acceptance.{Accepted};
ghost use Rattle.sak_exchange.specs.declared.change.Cause.{Cause};
ghost use Rattle.group_safety.specs.Steady.{Begins, IsKeeper, IsSteady};
ghost use Rattle.group_safety.specs.Time.{IsFlight, IsInTime, IsFound};
ghost use Rattle.group_safety.specs.worked.Group.{settings, id};
ghost use Rattle.group_safety.specs.worked.Rows.{late, late_rollover, late_flight};
ghost use Rattle.group_safety.specs.worked.Rows.{missed, missed_rollover};

/// In time and too late. Alice (station 0) makes the second key in event 41 and begins it in event
/// 57. The rollover is steady, with a lag of 0 rounds. The frame that bob (station 1) claimed in
/// event 55 under the first key reaches alice in event 62: it is in time, and found. In event 161
/// it reaches her again, too late. Where it reaches carol (station 2), in event 63, it is not in
/// time, as she never had the first key.
pub fn law_late()
    ensures steady { IsSteady settings late late_rollover }
    ensures flies { IsFlight settings late (late_flight 0 62) }
    ensures in_time { IsInTime settings late late_rollover (late_flight 0 62) }
    ensures found { IsFound settings late (late_flight 0 62) }
    ensures flies_again { IsFlight settings late (late_flight 0 161) }
    ensures too_late { IsInTime settings late late_rollover (late_flight 0 161) → ⊥ }
    ensures flies_to_carol { IsFlight settings late (late_flight 2 63) }
    ensures no_keeper { IsInTime settings late late_rollover (late_flight 2 63) → ⊥ }
{}

/// A missed flag. Bob (station 1) has said that he receives both keys, and does not hear that alice
/// begins the second one, in event 55: he never begins it. So no lag makes the rollover steady.
pub fn law_missed_flag()
    ensures keeps { (lag : ℕ) → (sent : ℕ) × (says : Accepted)
        × IsKeeper settings missed (missed_rollover lag) 1 sent says }
    ensures never { (moment : ℕ) (cause : Cause) → Begins missed moment 1 (id 2) cause → ⊥ }
    ensures unsteady { (lag : ℕ) → IsSteady settings missed (missed_rollover lag) → ⊥ }
{}
