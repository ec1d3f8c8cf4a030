//! What stops a group: a limit, a draw that repeats, foreign octets that are forged.

ghost use Rattle.std.specs.Prelude.{◌≡◌, ◌+◌, ◌++◌, map, sum, length, Some, option_and_then, option_to_list, OnOk};
ghost use Rattle.std.specs.Option.{option_copied};
ghost use Rattle.lan_base.specs.Suites.{sak_draws};
ghost use Rattle.lan_core.specs.declared.event.Event.TheVariants as events;
ghost use Rattle.lan_core.specs.declared.stop.Stop.TheVariants.{RepeatedDraw};
ghost use Rattle.lan_core.specs.Run.{Run};
ghost use Rattle.lan_core.specs.Ledgers.{air as air_after};
ghost use Rattle.lan_core.specs.Order.{Exists};
ghost use Rattle.lan_core.specs.Stops.{stop_of_forgery};
ghost use Rattle.lan_core.specs.Standing.{in_order, number_of_mi, number_of_sak};
ghost use Rattle.lan_core.specs.Answers.{IsWhy};
ghost use Rattle.lan_core.specs.inside.Judging.{MayJudge};
ghost use Rattle.lan_core.specs.Noting.{MiIsNoted};
ghost use Rattle.lan_core.specs.inside.Drawing.{IfNoted, stop_of};

use super::Lan;
use crate::air::Air;
use crate::drawn::Drawn;
use crate::judge::Judge;
use crate::limits::Extent;
use crate::stop::{StepError, Stop};
use aes_block::Secret;
use lan_base::{Mi, Octets, Suite};

impl Lan {
    /// How far the group comes with a frame more, if there is one, with so many ticks, and with so
    /// many installs at a station.
    pub(super) fn extent(&self, sent: Option<&Octets>, ticks: u32, installs: u32) -> Extent
        ensures { let frames = self.now.air ++ option_to_list (option_copied sent.entry) in
            result ≡ record {
              frames = length frames;
              octets = sum (map length frames);
              ticks = ticks;
              installs = installs;
              stations = length self.now.names;
            } }
    {
        let (frames, octets) = self.air.with(sent);
        Extent {
            frames,
            octets,
            ticks,
            installs,
            stations: self.names.len(),
        }
    }
}

/// Foreign octets that are forged stop the group, where there is a station that they reached.
pub fn judge_forgery(
    judge: &mut Judge,
    air: &Air,
    station: u8,
    octets: &[u8],
) -> Result<(), StepError>
    ensures judges { (r : Run) → air.now ≡ in_order (air_after r) → Exists station r
        → MayJudge (stop_of_forgery judge.old.settings r
        (events.Inject station octets.now)) result }
    ensures kept { judge.new.settings ≡ judge.old.settings }
{
    judge.turn_to(octets)?;
    if judge.judgement().is_err() {
        return Ok(());
    }
    if air.repeats(octets)? {
        return Ok(());
    }
    Err(StepError::Stopped(Stop::Forged { station }))
}

/// A member identifier is drawn. One that was drawn before stops the group.
pub fn note_mi(drawn: &mut Drawn, mi: Mi) -> Result<(), StepError>
    ensures judges { MayJudge (stop_of drawn.old (number_of_mi drawn.old mi)) result }
    ensures noted { OnOk result (MiIsNoted drawn.old drawn.new mi) }
{
    if let Some(first) = drawn.number_of_mi(&mi) {
        return Err(repeated(first, drawn));
    }
    drawn.note_mi(mi)?;
    Ok(())
}

/// A key is drawn, if one was made. One that was drawn before stops the group.
pub fn note_sak(drawn: &mut Drawn, suite: Suite, sak: Option<Secret>) -> Result<(), StepError>
    ensures judges { MayJudge (stop_of drawn.old
        (option_and_then (number_of_sak drawn.old) sak)) result }
    ensures noted { OnOk result (IfNoted (sak_draws suite) drawn.old drawn.new sak) }
{
    let Some(sak) = sak else {
        return Ok(());
    };
    if let Some(first) = drawn.number_of_sak(&sak) {
        return Err(repeated(first, drawn));
    }
    drawn.note_sak(&sak, suite.sak_draws())?;
    Ok(())
}

/// The next draw repeats this one.
fn repeated(first: u64, drawn: &Drawn) -> StepError
    ensures { IsWhy (Some (RepeatedDraw first (drawn.now.count + 1))) result }
{
    let second = drawn.next_number();
    StepError::Stopped(Stop::RepeatedDraw { first, second })
}
