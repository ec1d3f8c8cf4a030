//! What drives key agreement: a start, a tick, a new life.

ghost use Rattle.std.specs.Prelude.{◌≡◌, ◌<◌, ◌≤◌, ◌+◌, ◌++◌, [], List, None, length, option_map, option_and_then, option_to_list, IfOk, OnOk, OnErr, IfErr};
ghost use Rattle.std.specs.Option.{option_or};
ghost use Rattle.lan_base.specs.declared.frame.UserFrame.{UserFrame};
ghost use Rattle.lan_base.specs.Ranges.{IsCkn};
ghost use Rattle.lan_base.specs.Suites.{sak_draws};
ghost use Rattle.mka_station.specs.Standing.{born};
ghost use Rattle.lan_core.specs.declared.event.Event.TheVariants as events;
ghost use Rattle.lan_core.specs.declared.settings.Settings.{Settings};
ghost use Rattle.lan_core.specs.declared.stop.Stop.TheVariants.{Limit};
ghost use Rattle.lan_core.specs.declared.stop.Which.TheVariants.{Stations};
ghost use Rattle.lan_core.specs.Run.{Run};
ghost use Rattle.lan_core.specs.Lives.{drawn_sak, setup_of};
ghost use Rattle.lan_core.specs.Order.{most_stations};
ghost use Rattle.lan_core.specs.Stops.{MayCome};
ghost use Rattle.lan_core.specs.Standing.{StandsFor, Sits, number_of_sak};
ghost use Rattle.lan_core.specs.Answers.{Answers};
ghost use Rattle.lan_core.specs.inside.Judging.{MayJudge};
ghost use Rattle.lan_core.specs.inside.Drawing.{IfNoted, stop_of};
ghost use Rattle.lan_core.specs.inside.Limits.{passed_with};
ghost use Rattle.lan_core.specs.inside.Shown.{sent_in};

use super::Lan;
use super::stopping::{note_mi, note_sak};
use crate::event_facts::EventFacts;
use crate::fact::{Fact, Facts};
use crate::limits::STATIONS_MAX;
use crate::seat::Seat;
use crate::settings::{Settings, group_of};
use crate::stop::{StepError, Stop, Which};
use lan_base::{Draws, Name, Sci};
use mka_station::{Config, mi_of};
use sak_exchange::Rekey;
use std::alloc::{AllocError, Global};

impl Lan {
    /// A station begins its first life. A station is large: this keeps the room for it out of the
    /// steps that start none.
    #[inline(never)]
    pub(super) fn start<D: Draws>(
        &mut self,
        name: Name,
        sci: Sci,
        priority: u8,
        draws: &mut D,
    ) -> Result<Facts, StepError>
        ensures answers { (settings : Settings) (users : List UserFrame) (r : Run)
            → StandsFor settings users self.old r
            → MayCome settings users r None (events.Start name sci priority)
            → Answers settings users r (events.Start name sci priority)
            (D.nth draws.old) (D.nth draws.new) self.new result }
        ensures shown { OnErr result ((self.new.air ≡ self.old.air)
            × (self.new.names ≡ self.old.names)) }
    {
        let draw = draws.draw().ok_or(Stop::DrawsSpent)?;
        let place = free_place(self.names.len())?;
        let mi = mi_of(draw);
        note_mi(&mut self.drawn, mi)?;
        let facts = Facts::one(self.alloc, Fact::Life { station: place, mi })?;
        let seat = first_seat(self.alloc, self.judge.settings(), sci, priority, draw)?;
        self.seats.push(seat)?;
        self.names.push(name)?;
        Ok(facts)
    }

    /// A tick at a station.
    pub(super) fn tick<D: Draws>(
        &mut self,
        station: u8,
        next: u64,
        draws: &mut D,
    ) -> Result<Facts, StepError>
        ensures answers { (settings : Settings) (users : List UserFrame) (r : Run)
            → StandsFor settings users self.old r
            → MayCome settings users r None (events.Tick station next)
            → Answers settings users r (events.Tick station next)
            (D.nth draws.old) (D.nth draws.new) self.new result }
        ensures shown { OnErr result ((self.new.air ≡ self.old.air)
            × (self.new.names ≡ self.old.names)) }
    {
        let number = self.air.next_number();
        self.seats.judge_counts(station)?;
        let Some(event_facts) = self.seats.tick(station, number, next, draws)? else {
            return Ok(Facts::new(self.alloc));
        };
        self.count_tick(&event_facts)?;
        Ok(event_facts.facts)
    }

    /// What a tick shows is judged, counted, and put on the air.
    fn count_tick(&mut self, event_facts: &EventFacts) -> Result<(), StepError>
        ensures judges { MayJudge (option_or
            (option_map Limit (passed_with (self.old.air ++ option_to_list (sent_in event_facts.now.facts))
            (self.old.ticks + 1)
            event_facts.now.installs (length self.old.names)))
            (stop_of self.old.drawn (option_and_then (number_of_sak self.old.drawn)
            (drawn_sak event_facts.now.facts)))) result }
        ensures ticked { OnOk result (self.new ≡ record self.old {
          air = self.old.air ++ option_to_list (sent_in event_facts.now.facts);
          ticks = self.old.ticks + 1;
          drawn = self.new.drawn;
        }) }
        ensures drawn { OnOk result
            (IfNoted (sak_draws self.old.settings.suite) self.old.drawn self.new.drawn
            (drawn_sak event_facts.now.facts)) }
        ensures shown { OnErr result ((self.new.air ≡ self.old.air)
            × (self.new.names ≡ self.old.names)) }
    {
        let sent = event_facts.sent();
        let ticks = self.ticks + 1;
        self.extent(sent, ticks, event_facts.installs).judge()?;
        note_sak(&mut self.drawn, self.judge.suite(), event_facts.installed())?;
        self.ticks = ticks;
        self.air.put(sent)?;
        Ok(())
    }

    /// A station starts again.
    #[inline(never)]
    pub(super) fn restart<D: Draws>(
        &mut self,
        station: u8,
        draws: &mut D,
    ) -> Result<Facts, StepError>
        ensures answers { (settings : Settings) (users : List UserFrame) (r : Run)
            → StandsFor settings users self.old r
            → MayCome settings users r None (events.Restart station)
            → Answers settings users r (events.Restart station) (D.nth draws.old)
            (D.nth draws.new) self.new result }
        ensures shown { OnErr result ((self.new.air ≡ self.old.air)
            × (self.new.names ≡ self.old.names)) }
    {
        let draw = draws.draw().ok_or(Stop::DrawsSpent)?;
        note_mi(&mut self.drawn, mi_of(draw))?;
        let Some(event_facts) = self.seats.restart(station, draw)? else {
            return Ok(Facts::new(self.alloc));
        };
        Ok(event_facts.facts)
    }
}

/// The seat of a station of a group in its first life, which begins with this draw.
fn first_seat(
    alloc: Global,
    settings: &Settings,
    sci: Sci,
    priority: u8,
    draw: [u8; 16],
) -> Result<Seat, AllocError>
    requires named { IsCkn settings.now.ckn }
    ensures { IfOk result (Sits settings.now.window (record {
      member = born (setup_of settings.now
          (record { name = []; sci = sci; priority = priority })) 0 draw;
      past = [];
    }) []) }
{
    let group = group_of(alloc, settings)?;
    let config = Config {
        sci,
        priority,
        rekey: Rekey {
            from: settings.rekey,
            as_old: false,
        },
        conf: settings.conf,
        early_flag: settings.early_flag,
        group,
        suite: settings.suite,
    };
    Seat::start(alloc, config, settings.window, draw)
}

/// The place of the next station, where there are so many.
fn free_place(stations: usize) -> Result<u8, Stop>
    ensures place { IfOk result (λ place. (place ≡ stations) × (stations < most_stations)) }
    ensures full { IfErr result (λ stop. (stop ≡ Limit Stations) × (most_stations ≤ stations)) }
{
    if stations >= STATIONS_MAX {
        return Err(Stop::Limit(Which::Stations));
    }
    Ok(stations as u8)
}
