//! A replay performs the lines of a trace, one after the other.

ghost use Rattle.std.specs.Prelude.{◌≡◌, [], Some, None, Ok, Err, IfErr, OnOk};
ghost use Rattle.std.specs.Prelude.{List, true, false};
ghost use Rattle.lan_core.specs.Run.{facts_of};
ghost use Rattle.fact_tally.specs.Summary.{counts};
ghost use Rattle.station_words.specs.Seats.{NoMoreOut};
ghost use Rattle.trace_text.specs.declared.line.Line.TheVariants as lines;
ghost use Rattle.trace_text.specs.Reading.{line_in};
ghost use Rattle.trace_text.specs.Writing.{IsInForm};
ghost use Rattle.trace_acts.specs.declared.halt.Halt.{Halt};
ghost use Rattle.trace_acts.specs.Kinds.{is_allowed};
ghost use Rattle.lan_schedule.specs.Races.{Chance};
ghost use Rattle.lan_schedule.specs.World.{World, beginning};
ghost use Rattle.lan_schedule.specs.Acts.{look};
ghost use Rattle.lan_schedule.specs.Lines.{numbered, at_line, act_of, deed};
ghost use Rattle.lan_schedule.specs.Lines.{line_after, performed};
ghost use Rattle.lan_schedule.specs.Ends.{moment};
ghost use Rattle.lan_schedule.specs.Standing.{StandsFor, Counts, Does, Closes, phase_of};
ghost use Rattle.lan_schedule.specs.Shown.{words_of};
ghost use Rattle.lan_schedule.specs.Woven.{RunsRace, is_controlling, race_in};
ghost use Rattle.lan_schedule.specs.Calls.{KeepsHalt, Performs};
ghost use Rattle.lan_schedule.specs.inside.Halted.{halted_by};

use crate::phase::Phase;
use crate::race::run_race;
use crate::recorder::{Preparing, Recorder};
use crate::stage::Stage;
use fact_tally::Tally;
use packet_claims::Gate;
use std::alloc::Global;
use std::mem::replace;
use std::thread::Threads;
use trace_acts::{Choices, Halt, Kind, choose, kind_of_fault, put, refusal};
use trace_text::{Line, LineError, read_line};

/// What the lines so far have made. Contracts see by `StandsFor` which world that is, and by
/// `Counts` of which world it has the tally, whether it is halted or not.
#[derive(Drop)]
pub struct Replay {
    alloc: Global,
    halted: Option<Halt>,
    /// The number of the last line before the first station.
    line: u32,
    chosen: Choices,
    /// The tally before the first station: that of no facts.
    nothing: Tally,
    /// The group at work, from the first station on.
    stage: Option<Stage>,
    /// Where the lines stand.
    phase: Phase,
}

impl Replay {
    /// No line was performed.
    pub fn new(alloc: Global) -> Self
        ensures stands { (chances : List Chance) → StandsFor (beginning chances) result }
        ensures seats { words_of result ≡ [] }
    {
        Replay {
            alloc,
            halted: None,
            line: 0,
            chosen: Choices::new(),
            nothing: Tally::new(),
            stage: None,
            phase: Phase::Apart,
        }
    }

    /// The tally of all facts that the lines so far have shown, also those of a line that ended
    /// early.
    pub fn tally(&self) -> &Tally
        ensures goes { (w : World) → StandsFor w self.now → result.now ≡ counts (facts_of w.run) }
        ensures halted { (w : World) → Counts w self.now → result.now ≡ counts (facts_of w.run) }
    {
        match &self.stage {
            Some(stage) => &stage.tally,
            None => &self.nothing,
        }
    }

    /// Performs one line, whose number in the trace is given, and tells what each event shows before
    /// the next one happens, but for a race: its end runs it whole, and then tells what it showed. An
    /// error halts the replay: it answers that error from then on, and keeps the tally of what had
    /// happened. However it ends, no seat is out that a worker had.
    pub fn command<T: Threads + Sync, K, R: Preparing<K>, G: Gate + Sync>(
        &mut self,
        rt: &T,
        number: u32,
        line: Line,
        recorder: &mut R,
        outlet: &mut K,
        gate: &G,
    ) -> Result<(), Halt>
        requires { IsInForm line }
        ensures performs { Performs R.Took R.Broke (line ≡ lines.End) (at_line number)
            (numbered number line)
            (moment self.old outlet.old) (moment self.new outlet.new) result }
        ensures keeps { KeepsHalt (moment self.old outlet.old) (moment self.new outlet.new) result }
    {
        self.going()?;
        let outcome = self.perform_line(rt, number, line, recorder, outlet, gate);
        self.ended(outcome)
    }

    /// Performs a text without its line ending, as the next line, and tells what each event shows
    /// before the next one happens. An error halts the replay, as that of a command does, and no seat is
    /// out.
    pub fn text<T: Threads + Sync, K, R: Preparing<K>, G: Gate + Sync>(
        &mut self,
        rt: &T,
        text: &[u8],
        recorder: &mut R,
        outlet: &mut K,
        gate: &G,
    ) -> Result<(), Halt>
        ensures performs { Performs R.Took R.Broke (line_in text.now ≡ Ok (Some lines.End))
            (λ w. at_line (line_after w.kept.line) w) (performed text.now)
            (moment self.old outlet.old) (moment self.new outlet.new) result }
        ensures keeps { KeepsHalt (moment self.old outlet.old) (moment self.new outlet.new) result }
    {
        self.going()?;
        let outcome = self.perform_text(rt, text, recorder, outlet, gate);
        self.ended(outcome)
    }

    /// Runs the race that is kept, as its end does, whose line has the number of the last one: control's
    /// lines are performed while the workers of its bursts claim, and what both did then stands in one
    /// run. Where no race is kept whose lines of control come, nothing is done. An error halts the replay,
    /// as that of a command does, and no seat is out.
    pub fn race<T: Threads + Sync, K, R: Preparing<K>, G: Gate + Sync>(
        &mut self,
        rt: &T,
        recorder: &mut R,
        outlet: &mut K,
        gate: &G,
    ) -> Result<(), Halt>
        ensures race { RunsRace R.Took R.Broke (λ w. w) (look (λ w. race_in w.kept.phase w))
            (moment self.old outlet.old) (moment self.new outlet.new) result }
        ensures none { is_controlling (phase_of self.old.phase) ≡ false → self.old.halted ≡ None
            → (result ≡ Ok tt) × (self.new ≡ self.old) × (outlet.new ≡ outlet.old) }
        ensures seats { NoMoreOut (words_of self.old) (words_of self.new) }
        ensures keeps { KeepsHalt (moment self.old outlet.old) (moment self.new outlet.new) result }
    {
        self.going()?;
        if !self.phase.controls() {
            return Ok(());
        }
        let outcome = self.run_kept(rt, recorder, outlet, gate);
        self.ended(outcome)
    }

    /// Says whether the trace may end here: not inside a race.
    pub fn close(&self) -> Result<(), Halt>
        ensures closes { (w : World) → StandsFor w self.now → Closes w result }
        ensures again { (halt : Halt) → self.now.halted ≡ Some halt → result ≡ Err halt }
    {
        self.going()?;
        if !self.phase.is_inside() {
            return Ok(());
        }
        Err(Halt::Trace {
            line: self.line().saturating_add(1),
            kind: Kind::NoEnd,
        })
    }

    /// Answers the halt again, if there was one.
    fn going(&self) -> Result<(), Halt>
        ensures goes { OnOk result (self.now.halted ≡ None) }
        ensures halted { IfErr result (λ halt. self.now.halted ≡ Some halt) }
    {
        match self.halted {
            Some(halt) => Err(halt),
            None => Ok(()),
        }
    }

    /// A call ended so: an error halts the replay.
    fn ended(&mut self, outcome: Result<(), Halt>) -> Result<(), Halt>
        ensures same { result ≡ outcome }
        ensures left { self.new ≡ halted_by outcome self.old }
    {
        if let Err(halt) = outcome {
            self.halted = Some(halt);
        }
        outcome
    }

    /// Performs a text as the next line.
    fn perform_text<T: Threads + Sync, K, R: Preparing<K>, G: Gate + Sync>(
        &mut self,
        rt: &T,
        text: &[u8],
        recorder: &mut R,
        outlet: &mut K,
        gate: &G,
    ) -> Result<(), Halt>
        ensures { Performs R.Took R.Broke (line_in text.now ≡ Ok (Some lines.End))
            (λ w. at_line (line_after w.kept.line) w) (performed text.now)
            (moment self.old outlet.old) (moment self.new outlet.new) result }
    {
        let number = self.line().saturating_add(1);
        match read_line(self.alloc, text) {
            Ok(None) => {
                self.begin_line(number);
                Ok(())
            }
            Ok(Some(line)) => self.perform_line(rt, number, line, recorder, outlet, gate),
            Err(LineError::Refused(fault)) => Err(Halt::Trace {
                line: number,
                kind: kind_of_fault(fault),
            }),
            Err(LineError::Memory) => Err(Halt::Memory),
        }
    }

    /// Performs the line of a number.
    fn perform_line<T: Threads + Sync, K, R: Preparing<K>, G: Gate + Sync>(
        &mut self,
        rt: &T,
        number: u32,
        line: Line,
        recorder: &mut R,
        outlet: &mut K,
        gate: &G,
    ) -> Result<(), Halt>
        requires { IsInForm line }
        ensures { Performs R.Took R.Broke (line ≡ lines.End) (at_line number) (numbered number line)
            (moment self.old outlet.old) (moment self.new outlet.new) result }
    {
        self.begin_line(number);
        self.perform(rt, line, recorder, outlet, gate)
    }

    /// The line of a number begins, and performs nothing so far.
    fn begin_line(&mut self, number: u32)
        ensures stands { (w : World) → StandsFor w self.old → StandsFor (at_line number w) self.new }
        ensures words { words_of self.new ≡ words_of self.old }
    {
        if let Some(stage) = &mut self.stage {
            stage.line = number;
            return;
        }
        self.line = number;
    }

    /// The number of the last line.
    fn line(&self) -> u32
        ensures { (w : World) → StandsFor w self.now → result ≡ w.kept.line }
    {
        match &self.stage {
            Some(stage) => stage.line,
            None => self.line,
        }
    }

    /// Performs a line.
    fn perform<T: Threads + Sync, K, R: Preparing<K>, G: Gate + Sync>(
        &mut self,
        rt: &T,
        line: Line,
        recorder: &mut R,
        outlet: &mut K,
        gate: &G,
    ) -> Result<(), Halt>
        requires { IsInForm line }
        ensures { Performs R.Took R.Broke (line ≡ lines.End) (λ w. w) (act_of line)
            (moment self.old outlet.old) (moment self.new outlet.new) result }
    {
        if self.phase.is_end(&line) {
            return self.run_kept(rt, recorder, outlet, gate);
        }
        if let Some(stage) = &mut self.stage {
            if self.phase.takes(&line) {
                return self.phase.take(stage, line);
            }
            return stage.command(rt, line, recorder, outlet, gate);
        }
        if let Some(kind) = refusal(&self.chosen, &line) {
            return Err(Halt::Trace {
                line: self.line,
                kind,
            });
        }
        self.prepare(&line, recorder, outlet, gate)
    }

    /// The race that is kept is run.
    fn run_kept<T: Threads + Sync, K, R: Preparing<K>, G: Gate + Sync>(
        &mut self,
        rt: &T,
        recorder: &mut R,
        outlet: &mut K,
        gate: &G,
    ) -> Result<(), Halt>
        requires controls { is_controlling (phase_of self.old.phase) ≡ true }
        ensures runs { RunsRace R.Took R.Broke (λ w. w) (look (λ w. race_in w.kept.phase w))
            (moment self.old outlet.old) (moment self.new outlet.new) result }
        ensures seats { NoMoreOut (words_of self.old) (words_of self.new) }
    {
        let Some(stage) = self.stage.take() else {
            return Ok(());
        };
        let Phase::Controlling(bursts, control) = replace(&mut self.phase, Phase::Apart) else {
            put(&mut self.stage, stage);
            return Ok(());
        };
        let (stage, outcome) = run_race(rt, stage, &bursts, control, recorder, outlet, gate);
        put(&mut self.stage, stage);
        outcome
    }

    /// Performs a line before the first station, which isn't refused: that station starts, or a choice is
    /// made.
    fn prepare<K, R: Recorder<K>, G: Gate>(
        &mut self,
        line: &Line,
        recorder: &mut R,
        outlet: &mut K,
        gate: &G,
    ) -> Result<(), Halt>
        requires form { IsInForm line.now }
        requires unbegun { self.old.stage ≡ None }
        requires allowed { is_allowed line.now false self.old.chosen ≡ true }
        ensures does { Does R.Took R.Broke (look (λ w. deed line.now w))
            (moment self.old outlet.old) (moment self.new outlet.new) result }
        ensures seats { NoMoreOut (words_of self.old) (words_of self.new) }
    {
        match line {
            Line::Station {
                name,
                sci,
                priority,
            } => {
                let mut stage = Stage::new(self.alloc, &self.chosen, self.line)?;
                let outcome = stage.start(*name, *sci, *priority, recorder, outlet, gate);
                put(&mut self.stage, stage);
                outcome
            }
            _ => {
                choose(self.alloc, &mut self.chosen, line)?;
                Ok(())
            }
        }
    }
}
