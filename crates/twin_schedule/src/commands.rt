//! A replay performs the lines of a trace of two groups, one after the other.

ghost use Rattle.std.specs.Prelude.{◌≡◌, ◌⊎◌, ℕ, length, Some, None, Ok, Err, IfOk, IfErr, IfNone};
ghost use Rattle.std.specs.Prelude.{OnOk, is_some, true, false};
ghost use Rattle.trace_text.specs.Writing.{IsInForm};
ghost use Rattle.trace_text.specs.twin.InForm.{IsInFormRoll};
ghost use Rattle.trace_acts.specs.declared.halt.Halt.{Halt};
ghost use Rattle.trace_acts.specs.declared.halt.Kind.TheVariants as kinds;
ghost use Rattle.trace_acts.specs.Kinds.{first_of, is_allowed};
ghost use Rattle.trace_acts.specs.Settings.{secret_of};
ghost use Rattle.twin_schedule.specs.World.{World, beginning, waiting};
ghost use Rattle.twin_schedule.specs.Acts.{look};
ghost use Rattle.twin_schedule.specs.Kinds.{refusal};
ghost use Rattle.twin_schedule.specs.Lines.{numbered, at_line, act_of, deed_plain, performed};
ghost use Rattle.twin_schedule.specs.Ends.{moment, IsReached};
ghost use Rattle.twin_schedule.specs.Standing.{StandsFor, Does, MayOpen};
ghost use Rattle.twin_schedule.specs.Stages.{StandsFor as StageStandsFor};
ghost use Rattle.twin_schedule.specs.declared.stage.Stage.{Stage};
ghost use Rattle.twin_schedule.specs.inside.Choosing.{begun_in, is_later, MayJoin, MayPrepare};
ghost use Rattle.twin_schedule.specs.inside.Doing.{DidSo};

use crate::recorder::TwinRecorder;
use crate::refusals::{is_group, may_be_second, order_where};
use crate::stage::Stage;
use cak_roll::law_group_runs_are_sound;
use lan_base::Octets;
use std::alloc::Global;
use std::mem::replace;
use trace_acts::{Choices, Halt, Keyed, Kind, choose, kind_of_fault, put, refusal, secret_of};
use trace_text::twin::{RollLine, read_roll_line};
use trace_text::{Line, LineError};

/// What the lines so far have made. Contracts see by `StandsFor` which world that is.
#[derive(Drop)]
pub struct TwinReplay {
    alloc: Global,
    halted: Option<Halt>,
    /// The number of the last line before the first station.
    line: u32,
    chosen: Choices,
    /// The second group, if it came.
    second: Option<Keyed>,
    /// The groups at work, from the first station on.
    stage: Option<Stage>,
}

impl TwinReplay {
    /// No line was performed.
    pub fn new(alloc: Global) -> Self
        ensures { StandsFor beginning result }
    {
        TwinReplay {
            alloc,
            halted: None,
            line: 0,
            chosen: Choices::new(),
            second: None,
            stage: None,
        }
    }

    /// Performs a text without its line ending, as the next line, and tells what each event shows in
    /// each group before the next one happens. An error halts the replay: it answers that error from
    /// then on.
    pub fn text<K, R: TwinRecorder<K>>(
        &mut self,
        text: &[u8],
        recorder: &mut R,
        outlet: &mut K,
    ) -> Result<(), Halt>
        ensures does { Does R.Took R.Broke (performed text.now)
            (moment self.old outlet.old) (moment self.new outlet.new) result }
        ensures halts { IfErr result (λ halt. self.new.halted ≡ Some halt) }
        ensures again { (halt : Halt) → self.old.halted ≡ Some halt
            → (result ≡ Err halt) × (self.new ≡ self.old) × (outlet.new ≡ outlet.old) }
    {
        law_group_runs_are_sound();
        if let Some(halt) = self.halted {
            return Err(halt);
        }
        let outcome = self.perform_text(text, recorder, outlet);
        if let Err(halt) = outcome {
            self.halted = Some(halt);
        }
        outcome
    }

    /// Performs a text as the next line.
    fn perform_text<K, R: TwinRecorder<K>>(
        &mut self,
        text: &[u8],
        recorder: &mut R,
        outlet: &mut K,
    ) -> Result<(), Halt>
        ensures { DidSo R.Took R.Broke (performed text.now)
            (moment self.old outlet.old) (moment self.new outlet.new) result }
    {
        let number = self.line().saturating_add(1);
        match read_roll_line(self.alloc, text) {
            Ok(None) => {
                self.begin_line(number);
                Ok(())
            }
            Ok(Some(line)) => self.perform_line(number, &line, recorder, outlet),
            Err(LineError::Refused(fault)) => Err(Halt::Trace {
                line: number,
                kind: kind_of_fault(fault),
            }),
            Err(LineError::Memory) => Err(Halt::Memory),
        }
    }

    /// Performs the line of a number.
    fn perform_line<K, R: TwinRecorder<K>>(
        &mut self,
        number: u32,
        line: &RollLine,
        recorder: &mut R,
        outlet: &mut K,
    ) -> Result<(), Halt>
        requires { IsInFormRoll line.now }
        ensures { DidSo R.Took R.Broke (numbered number line.now)
            (moment self.old outlet.old) (moment self.new outlet.new) result }
    {
        self.begin_line(number);
        self.perform(line, recorder, outlet)
    }

    /// The line of a number begins, and performs nothing so far.
    fn begin_line(&mut self, number: u32)
        ensures { (w : World) → StandsFor w self.old → StandsFor (at_line number w) self.new }
    {
        if let Some(stage) = &mut self.stage {
            stage.line = number;
            return;
        }
        self.line = number;
    }

    /// The number of the last line.
    fn line(&self) -> u32
        ensures { (w : World) → StandsFor w self.now → result ≡ w.kept.line }
    {
        match &self.stage {
            Some(stage) => stage.line,
            None => self.line,
        }
    }

    /// Performs a line.
    fn perform<K, R: TwinRecorder<K>>(
        &mut self,
        line: &RollLine,
        recorder: &mut R,
        outlet: &mut K,
    ) -> Result<(), Halt>
        requires { IsInFormRoll line.now }
        ensures { DidSo R.Took R.Broke (act_of line.now)
            (moment self.old outlet.old) (moment self.new outlet.new) result }
    {
        if let Some(kind) = self.refusal(line) {
            return Err(Halt::Trace {
                line: self.line(),
                kind,
            });
        }
        if let Some(stage) = &mut self.stage {
            return stage.perform(line, recorder, outlet);
        }
        match line {
            RollLine::Plain(line) => self.prepare(line, recorder, outlet),
            RollLine::Group2 { cak, ckn } => self.take_second(cak, ckn),
            _ => Ok(()),
        }
    }

    /// Why a line is refused.
    fn refusal(&self, line: &RollLine) -> Option<Kind>
        ensures first { (w : World) → IsReached StandsFor w self.now → result ≡ refusal line.now w }
        ensures before { self.now.stage ≡ None
            → IfNone result (MayPrepare line.now self.now.chosen) }
        ensures staged { (stage : Stage) → self.now.stage ≡ Some stage → (w : World)
            → IsReached StageStandsFor w stage → result ≡ refusal line.now w }
        ensures second { self.now.stage ≡ None → IfNone result
            (MayJoin line.now self.now.chosen.group self.now.second) }
        ensures later { is_some self.now.stage ≡ true → IfNone result (is_later line.now ≡ true) }
    {
        match &self.stage {
            Some(stage) => stage.refusal(line),
            None => refusal_before(&self.chosen, &self.second, line),
        }
    }

    /// The second group comes before the first station.
    fn take_second(&mut self, cak: &Octets, ckn: &Octets) -> Result<(), Halt>
        requires { (length cak.now ≡ 16) ⊎ (length cak.now ≡ 32) }
        ensures second { OnOk result (self.new ≡ record self.old {
          second = Some (record { cak = secret_of cak.now; ckn = ckn.now });
        }) }
        ensures memory { IfErr result (λ halt. halt ≡ Halt.Memory) }
    {
        self.second = Some(Keyed {
            cak: secret_of(cak.as_slice()),
            ckn: ckn.copied(self.alloc)?,
        });
        Ok(())
    }

    /// Performs a line of one group before the first station, which isn't refused.
    fn prepare<K, R: TwinRecorder<K>>(
        &mut self,
        line: &Line,
        recorder: &mut R,
        outlet: &mut K,
    ) -> Result<(), Halt>
        requires form { IsInForm line.now }
        requires unbegun { self.old.stage ≡ None }
        requires allowed { is_allowed line.now false self.old.chosen ≡ true }
        ensures { DidSo R.Took R.Broke (look (λ w. deed_plain line.now w))
            (moment self.old outlet.old) (moment self.new outlet.new) result }
    {
        match line {
            Line::Station { .. } => {
                let mut stage = self.open()?;
                let outcome = stage.perform_plain(line, recorder, outlet);
                put(&mut self.stage, stage);
                outcome
            }
            _ => {
                choose(self.alloc, &mut self.chosen, line)?;
                Ok(())
            }
        }
    }

    /// The groups open, by what was chosen.
    fn open(&mut self) -> Result<Stage, Halt>
        requires { is_some self.old.chosen.group ≡ true }
        ensures stands { IfOk result (StageStandsFor
            (begun_in (waiting self.old.line self.old.chosen self.old.second))) }
        ensures memory { MayOpen self.old.chosen.group self.old.second
            → IfErr result (λ halt. halt ≡ Halt.Memory) }
        ensures halted { self.new.halted ≡ self.old.halted }
    {
        let chosen = replace(&mut self.chosen, Choices::new());
        Stage::new(self.alloc, chosen, self.second.take(), self.line)
    }
}

/// Why a line is refused before the first station.
fn refusal_before(chosen: &Choices, second: &Option<Keyed>, line: &RollLine) -> Option<Kind>
    ensures first { (n : ℕ) → result ≡ refusal line.now (waiting n chosen.now second.now) }
    ensures before { IfNone result (MayPrepare line.now chosen.now) }
    ensures second { IfNone result (MayJoin line.now chosen.now.group second.now) }
{
    match line {
        RollLine::Plain(line) => refusal(chosen, line),
        RollLine::Group2 { ckn, .. } => { order_where(!may_be_second(ckn, &chosen.group, second)) }
        RollLine::Adopt { .. } => Some(unknown_where(second.is_some())),
        RollLine::Leave { group, .. } => Some(unknown_where(is_group(*group))),
    }
}

/// The name of a line that may stand is unknown, as no station came.
fn unknown_where(allowed: bool) -> Kind
    ensures { Some result ≡ first_of allowed (Some kinds.NameUnknown) }
{
    if allowed {
        Kind::NameUnknown
    } else {
        Kind::Order
    }
}
