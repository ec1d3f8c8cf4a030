//! Time moves on, and frames go from station to station.

ghost use Rattle.std.specs.Prelude.{◌≡◌, ◌<◌, ◌+◌, ◌-◌, ◌^◌, ◌++◌, OnOk};
ghost use Rattle.cak_roll.specs.Twin.{of_group};
ghost use Rattle.std.specs.List.{range_with_len};
ghost use Rattle.twin_schedule.specs.World.{World, joined, sender, has_spread};
ghost use Rattle.twin_schedule.specs.Acts.{each, span, times};
ghost use Rattle.twin_schedule.specs.Lines.{tick_in, tick_both, round, pass, spread, spread_group};
ghost use Rattle.twin_schedule.specs.Lines.{flow_round, is_passed_by};
ghost use Rattle.twin_schedule.specs.Ends.{moment, IsReached};
ghost use Rattle.twin_schedule.specs.Stages.{StandsFor};
ghost use Rattle.twin_schedule.specs.inside.Doing.{Did};
ghost use Rattle.twin_schedule.specs.inside.Turning.{turn_of};

use crate::party::{Party, number_at};
use crate::recorder::TwinRecorder;
use crate::stage::Stage;
use cak_roll::{GroupNumber, TwinEvent};
use std::alloc::AllocError;
use trace_acts::Halt;

/// What a line does so many times.
#[derive(Clone, Copy)]
pub enum Turn {
    /// A tick of one station, in each group.
    Station(u8),
    /// A tick of each station.
    Round,
    /// A round of ticks, and then the frames of each group are spread.
    FlowRound,
}

impl Stage {
    /// A tick of a station in a group, where it takes part.
    fn tick_in<K, R: TwinRecorder<K>>(
        &mut self,
        group: GroupNumber,
        station: u8,
        recorder: &mut R,
        outlet: &mut K,
    ) -> Result<(), Halt>
        ensures { Did R.Took R.Broke (tick_in group station)
            (moment self.old outlet.old) (moment self.new outlet.new) result }
    {
        if !self.twin.takes_part(group, station) {
            return Ok(());
        }
        self.happen(&TwinEvent::Tick { station, group }, None, recorder, outlet)
    }

    /// A tick of a station in the first group, and then in the second.
    fn tick_both<K, R: TwinRecorder<K>>(
        &mut self,
        station: u8,
        recorder: &mut R,
        outlet: &mut K,
    ) -> Result<(), Halt>
        ensures { Did R.Took R.Broke (tick_both station)
            (moment self.old outlet.old) (moment self.new outlet.new) result }
    {
        self.tick_in(GroupNumber::First, station, recorder, outlet)?;
        self.tick_in(GroupNumber::Second, station, recorder, outlet)
    }

    /// A tick of each station, in each group.
    fn round<K, R: TwinRecorder<K>>(&mut self, recorder: &mut R, outlet: &mut K) -> Result<(), Halt>
        ensures { Did R.Took R.Broke round
            (moment self.old outlet.old) (moment self.new outlet.new) result }
    {
        for station in 0..self.station_count() {
            self.tick_both(station, recorder, outlet)?;
        }
        Ok(())
    }

    // ---- frames

    /// A group's frame goes from one station to another, unless it passes that by.
    fn pass<K, R: TwinRecorder<K>>(
        &mut self,
        group: GroupNumber,
        frame: u32,
        from: u8,
        station: u8,
        recorder: &mut R,
        outlet: &mut K,
    ) -> Result<(), Halt>
        ensures { Did R.Took R.Broke (pass group frame from station)
            (moment self.old outlet.old) (moment self.new outlet.new) result }
    {
        if self.passes_by(group, from, station) {
            return Ok(());
        }
        let deliver = TwinEvent::Deliver {
            group,
            frame,
            station,
        };
        self.happen(&deliver, None, recorder, outlet)
    }

    /// Whether a group's frame passes a station by.
    fn passes_by(&self, group: GroupNumber, from: u8, station: u8) -> bool
        ensures { (w : World) → StandsFor w self.now
            → result ≡ is_passed_by group from station w }
    {
        !self.twin.takes_part(group, station) || station == from || self.cuts.is_cut(from, station)
    }

    /// A group's frame goes from one station to others.
    fn pass_to<K, R: TwinRecorder<K>>(
        &mut self,
        group: GroupNumber,
        frame: u32,
        from: u8,
        stations: &[u8],
        recorder: &mut R,
        outlet: &mut K,
    ) -> Result<(), Halt>
        ensures { Did R.Took R.Broke (each (pass group frame from) stations.now)
            (moment self.old outlet.old) (moment self.new outlet.new) result }
    {
        for station in stations {
            self.pass(group, frame, from, *station, recorder, outlet)?;
        }
        Ok(())
    }

    /// A group's frame goes from its sender to those that joined the group, whose places are laid into a
    /// room.
    fn spread<K, R: TwinRecorder<K>>(
        &mut self,
        group: GroupNumber,
        frame: u32,
        room: &mut Vec<u8>,
        recorder: &mut R,
        outlet: &mut K,
    ) -> Result<(), Halt>
        ensures { Did R.Took R.Broke (spread group frame)
            (moment self.old outlet.old) (moment self.new outlet.new) result }
    {
        let from = self.sender(group, frame);
        self.lay_joined(group, room)?;
        self.pass_to(group, frame, from, room, recorder, outlet)
    }

    /// The sender of a group's frame of a number, from 1.
    fn sender(&self, group: GroupNumber, frame: u32) -> u8
        ensures { (w : World) → StandsFor w self.now → result ≡ sender group frame w.run }
    {
        match group {
            GroupNumber::First => self.first.sender(frame),
            GroupNumber::Second => number_at(
                self.twin.adopters(),
                usize::from(self.second.sender(frame)),
            ),
        }
    }

    /// Lays the stations that joined a group into a room, in that order.
    fn lay_joined(&self, group: GroupNumber, room: &mut Vec<u8>) -> Result<(), AllocError>
        ensures { (w : World) → IsReached StandsFor w self.now
            → OnOk result (room.new.items ≡ joined group w.run) }
    {
        room.clear();
        match group {
            GroupNumber::First => put_places(self.station_count(), room),
            GroupNumber::Second => room.extend_from_slice(self.twin.adopters()),
        }
    }

    /// The frames of a group that are not yet spread are, by number.
    fn spread_group<K, R: TwinRecorder<K>>(
        &mut self,
        group: GroupNumber,
        room: &mut Vec<u8>,
        recorder: &mut R,
        outlet: &mut K,
    ) -> Result<(), Halt>
        ensures { Did R.Took R.Broke (spread_group group)
            (moment self.old outlet.old) (moment self.new outlet.new) result }
    {
        let count = counted(self.party(group).frame_count());
        let first = self.party(group).spread;
        self.spread_between(group, first, count, room, recorder, outlet)?;
        self.set_spread(group, count);
        Ok(())
    }

    /// The frames of a group behind the first so many, up to a count, are spread.
    fn spread_between<K, R: TwinRecorder<K>>(
        &mut self,
        group: GroupNumber,
        first: u32,
        count: u32,
        room: &mut Vec<u8>,
        recorder: &mut R,
        outlet: &mut K,
    ) -> Result<(), Halt>
        ensures { Did R.Took R.Broke (span (λ place. spread group (place + 1)) first (count - first))
            (moment self.old outlet.old) (moment self.new outlet.new) result }
    {
        for place in first..count {
            self.spread(group, place + 1, room, recorder, outlet)?;
        }
        Ok(())
    }

    /// What is kept of a group.
    fn party(&self, group: GroupNumber) -> &Party
        ensures { result.now ≡ of_group group self.now.first self.now.second }
    {
        match group {
            GroupNumber::First => &self.first,
            GroupNumber::Second => &self.second,
        }
    }

    /// So many frames of a group were spread.
    fn set_spread(&mut self, group: GroupNumber, count: u32)
        ensures { (w : World) → StandsFor w self.old
            → StandsFor (record w { kept = has_spread group count w.kept }) self.new }
    {
        match group {
            GroupNumber::First => self.first.spread = count,
            GroupNumber::Second => self.second.spread = count,
        }
    }

    /// A flow round: a round of ticks, and then the frames of each group are spread.
    fn flow_round<K, R: TwinRecorder<K>>(
        &mut self,
        room: &mut Vec<u8>,
        recorder: &mut R,
        outlet: &mut K,
    ) -> Result<(), Halt>
        ensures { Did R.Took R.Broke flow_round
            (moment self.old outlet.old) (moment self.new outlet.new) result }
    {
        self.round(recorder, outlet)?;
        self.spread_group(GroupNumber::First, room, recorder, outlet)?;
        self.spread_group(GroupNumber::Second, room, recorder, outlet)
    }

    // ---- turns

    /// So many turns. All their frames find those who joined in one room, so that no frame takes memory.
    pub fn turns<K, R: TwinRecorder<K>>(
        &mut self,
        turn: Turn,
        count: u32,
        recorder: &mut R,
        outlet: &mut K,
    ) -> Result<(), Halt>
        ensures { Did R.Took R.Broke (times count (turn_of turn))
            (moment self.old outlet.old) (moment self.new outlet.new) result }
    {
        let mut room = Vec::new(self.alloc);
        for _ in 0..count {
            self.turn(turn, &mut room, recorder, outlet)?;
        }
        Ok(())
    }

    /// A turn.
    fn turn<K, R: TwinRecorder<K>>(
        &mut self,
        turn: Turn,
        room: &mut Vec<u8>,
        recorder: &mut R,
        outlet: &mut K,
    ) -> Result<(), Halt>
        ensures { Did R.Took R.Broke (turn_of turn)
            (moment self.old outlet.old) (moment self.new outlet.new) result }
    {
        match turn {
            Turn::Station(station) => self.tick_both(station, recorder, outlet),
            Turn::Round => self.round(recorder, outlet),
            Turn::FlowRound => self.flow_round(room, recorder, outlet),
        }
    }
}

/// A count of frames, of which there are fewer than 2^32.
fn counted(count: usize) -> u32
    ensures { count < 2 ^ 32 → result ≡ count }
{
    u32::try_from(count).unwrap_or(u32::MAX)
}

/// Appends the places below a count of stations.
fn put_places(count: u8, into: &mut Vec<u8>) -> Result<(), AllocError>
    ensures { OnOk result (into.new.items ≡ into.old.items ++ range_with_len 0 count) }
{
    for place in 0..count {
        into.push(place)?;
    }
    Ok(())
}
