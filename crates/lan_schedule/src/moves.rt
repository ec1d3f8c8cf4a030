//! Time moves on, and frames go from station to station.

ghost use Rattle.std.specs.Prelude.{◌≤◌};
ghost use Rattle.lan_base.specs.Ranges.{most_frames};
ghost use Rattle.lan_schedule.specs.Acts.{each, times};
ghost use Rattle.lan_schedule.specs.Lines.{feed, tick, round, to_others, spread, flow_round, pass};
ghost use Rattle.lan_schedule.specs.Ends.{moment};
ghost use Rattle.lan_schedule.specs.inside.Staged.{Did};

use crate::recorder::Recorder;
use crate::stage::Stage;
use lan_core::Event;
use packet_claims::Gate;
use trace_acts::Halt;

impl Stage {
    /// A tick of one station, which shows the next packet number.
    fn tick<K, R: Recorder<K>, G: Gate>(
        &mut self,
        station: u8,
        recorder: &mut R,
        outlet: &mut K,
        gate: &G,
    ) -> Result<(), Halt>
        ensures { Did R.Took R.Broke (tick station)
            (moment self.old outlet.old) (moment self.new outlet.new) result }
    {
        let next = self.words.next(station);
        self.happen(&Event::Tick { station, next }, None, recorder, outlet, gate)
    }

    /// So many ticks of one station.
    pub fn ticks<K, R: Recorder<K>, G: Gate>(
        &mut self,
        station: u8,
        count: u32,
        recorder: &mut R,
        outlet: &mut K,
        gate: &G,
    ) -> Result<(), Halt>
        ensures { Did R.Took R.Broke (times count (tick station))
            (moment self.old outlet.old) (moment self.new outlet.new) result }
    {
        for _ in 0..count {
            self.tick(station, recorder, outlet, gate)?;
        }
        Ok(())
    }

    /// A tick of each station.
    fn round<K, R: Recorder<K>, G: Gate>(
        &mut self,
        recorder: &mut R,
        outlet: &mut K,
        gate: &G,
    ) -> Result<(), Halt>
        ensures { Did R.Took R.Broke round
            (moment self.old outlet.old) (moment self.new outlet.new) result }
    {
        for station in 0..self.count() {
            self.tick(station, recorder, outlet, gate)?;
        }
        Ok(())
    }

    /// So many rounds.
    pub fn rounds<K, R: Recorder<K>, G: Gate>(
        &mut self,
        count: u32,
        recorder: &mut R,
        outlet: &mut K,
        gate: &G,
    ) -> Result<(), Halt>
        ensures { Did R.Took R.Broke (times count round)
            (moment self.old outlet.old) (moment self.new outlet.new) result }
    {
        for _ in 0..count {
            self.round(recorder, outlet, gate)?;
        }
        Ok(())
    }

    // ---- frames

    /// The frames from one number to another reach a station, in their order.
    pub fn feed<K, R: Recorder<K>, G: Gate>(
        &mut self,
        first: u32,
        last: u32,
        station: u8,
        recorder: &mut R,
        outlet: &mut K,
        gate: &G,
    ) -> Result<(), Halt>
        requires order { first ≤ last }
        requires few { last ≤ most_frames }
        ensures { Did R.Took R.Broke (feed first last station)
            (moment self.old outlet.old) (moment self.new outlet.new) result }
    {
        for behind in 0..last + 1 - first {
            self.deliver(first + behind, station, recorder, outlet, gate)?;
        }
        Ok(())
    }

    /// A frame goes from one station to another, unless that sent it or the link is cut.
    fn pass<K, R: Recorder<K>, G: Gate>(
        &mut self,
        frame: u32,
        from: u8,
        station: u8,
        recorder: &mut R,
        outlet: &mut K,
        gate: &G,
    ) -> Result<(), Halt>
        ensures { Did R.Took R.Broke (pass frame from station)
            (moment self.old outlet.old) (moment self.new outlet.new) result }
    {
        if station == from || self.cuts.is_cut(from, station) {
            return Ok(());
        }
        self.deliver(frame, station, recorder, outlet, gate)
    }

    /// A frame goes from one station to all others along the links that are whole.
    fn to_others<K, R: Recorder<K>, G: Gate>(
        &mut self,
        frame: u32,
        from: u8,
        recorder: &mut R,
        outlet: &mut K,
        gate: &G,
    ) -> Result<(), Halt>
        ensures { Did R.Took R.Broke (to_others frame from)
            (moment self.old outlet.old) (moment self.new outlet.new) result }
    {
        for station in 0..self.count() {
            self.pass(frame, from, station, recorder, outlet, gate)?;
        }
        Ok(())
    }

    /// A frame goes to all others, and is marked.
    pub fn spread<K, R: Recorder<K>, G: Gate>(
        &mut self,
        frame: u32,
        recorder: &mut R,
        outlet: &mut K,
        gate: &G,
    ) -> Result<(), Halt>
        ensures { Did R.Took R.Broke (spread frame)
            (moment self.old outlet.old) (moment self.new outlet.new) result }
    {
        let from = self.frames.sender(frame);
        self.to_others(frame, from, recorder, outlet, gate)?;
        self.frames.mark(frame);
        Ok(())
    }

    /// Frames are spread, one after the other.
    fn spread_all<K, R: Recorder<K>, G: Gate>(
        &mut self,
        frames: &[u32],
        recorder: &mut R,
        outlet: &mut K,
        gate: &G,
    ) -> Result<(), Halt>
        ensures { Did R.Took R.Broke (each spread frames.now)
            (moment self.old outlet.old) (moment self.new outlet.new) result }
    {
        for frame in frames {
            self.spread(*frame, recorder, outlet, gate)?;
        }
        Ok(())
    }

    /// A flow round: a round of ticks, and then each frame whose round has come is spread.
    fn flow_round<K, R: Recorder<K>, G: Gate>(
        &mut self,
        recorder: &mut R,
        outlet: &mut K,
        gate: &G,
    ) -> Result<(), Halt>
        ensures { Did R.Took R.Broke flow_round
            (moment self.old outlet.old) (moment self.new outlet.new) result }
    {
        self.frames.begin_round();
        self.round(recorder, outlet, gate)?;
        let frames = self.frames.due(self.alloc, self.lag)?;
        self.spread_all(&frames, recorder, outlet, gate)
    }

    /// So many flow rounds.
    pub fn flow<K, R: Recorder<K>, G: Gate>(
        &mut self,
        count: u32,
        recorder: &mut R,
        outlet: &mut K,
        gate: &G,
    ) -> Result<(), Halt>
        ensures { Did R.Took R.Broke (times count flow_round)
            (moment self.old outlet.old) (moment self.new outlet.new) result }
    {
        for _ in 0..count {
            self.flow_round(recorder, outlet, gate)?;
        }
        Ok(())
    }
}
