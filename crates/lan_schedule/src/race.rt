//! A race is run, once its end came: its lines of control are performed beside the workers of its
//! bursts, and what both did stands in one run.

ghost use Rattle.std.specs.Prelude.{◌≡◌, ◌<◌, ◌+◌, ◌*◌, ◌^◌, [], not, nat_lt, true, false, map};
ghost use Rattle.std.specs.Prelude.{List, IfOk, IfErr, IfSome, OnOk, OnErr, None, option_map};
ghost use Rattle.std.specs.Prelude.{All, IfNone, MatchResult, vec_capacity};
ghost use Rattle.data_workers.specs.Workers.{HasTable};
ghost use Rattle.lan_core.specs.declared.event.Event.TheVariants as events;
ghost use Rattle.association_slots.specs.Views.{ControlAt};
ghost use Rattle.station_words.specs.Seats.{NoMoreOut};
ghost use Rattle.station_words.specs.Ties.{tables_of};
ghost use Rattle.worker_races.specs.Senders.{IsNew, jobs_of};
ghost use Rattle.lan_schedule.specs.Races.{Numbered as NumberedAt};
ghost use Rattle.lan_schedule.specs.Races.{frames_asked, octets_asked, limit_of, share, worker_at};
ghost use Rattle.lan_schedule.specs.Races.{workers_of, frame_octets, most_claimed};
ghost use Rattle.lan_schedule.specs.World.{World};
ghost use Rattle.lan_schedule.specs.Acts.{happen, times};
ghost use Rattle.lan_schedule.specs.Lines.{air_excess, controlled, control_act, excess_of};
ghost use Rattle.lan_schedule.specs.Ends.{moment, IsReached};
ghost use Rattle.lan_schedule.specs.Stages.{StandsFor};
ghost use Rattle.lan_schedule.specs.inside.Beside.{AreHired, IsReady, IsUnhired, RanBeside};
ghost use Rattle.lan_schedule.specs.inside.Beside.{IsUnlisted, WereJoined, HiredAll, WasHired, BeginsRace};
ghost use Rattle.lan_schedule.specs.inside.Beside.{HasEnlisted, HasMoved, HaveRoom};
ghost use Rattle.lan_schedule.specs.inside.Beside.{HaveSeats, IsFull, OutFor};
ghost use Rattle.lan_schedule.specs.inside.Beside.{DidRace, EndsRace, Weaves, has_stopped, is_memory};
ghost use Rattle.lan_schedule.specs.inside.Staged.{Did};

use crate::keeping::{Keeping, KeptEvents};
use crate::phase::{Burst, Numbered};
use crate::recorder::{Preparing, Recorder};
use crate::stage::{MAX_CLAIMED, MAX_USERS, Stage};
use crate::steering::Runner;
use crate::weaving::{shown_in, tell_all};
use association_slots::SlotTable;
use data_workers::{Log, Sender, Worker, beside};
use fact_tally::Tally;
use gcm_frames::PROTECTION_OCTETS;
use lan_base::{FRAMES_MAX, UserFrame};
use lan_core::{Event, OCTETS_MAX, Which};
use packet_claims::Gate;
use station_words::{law_caught_up_words_keep_up, law_words_that_tell_keep_up};
use std::alloc::{AllocError, Global};
use std::thread::Threads;
use trace_acts::{Halt, Kind};
use worker_races::merge::{Step, merge, taken_frames};
use worker_races::{
    law_a_race_of_workers_is_a_race, law_cards_of_a_race_are_right,
    law_few_numbers_of_a_race_are_unused, law_frames_of_a_race_are_protected,
    law_words_catch_up_with_a_race,
};

/// The greatest count of frames on the air.
const MAX_FRAMES: u64 = FRAMES_MAX as u64;

/// How many octets a frame has more than its body.
const AROUND: u64 = PROTECTION_OCTETS as u64;

/// Who claims in a race: the workers, a handle of each station's table for them, and room for a log
/// of each.
#[derive(Drop)]
pub struct Crew {
    pub handles: Vec<SlotTable>,
    pub workers: Vec<Worker>,
    pub logs: Vec<Log>,
}

/// What came of control and of the workers: the steps of control, what these showed, and how control
/// ended; and the logs.
#[derive(Drop)]
pub struct Ran {
    pub steps: Vec<Step>,
    pub kept: KeptEvents,
    pub came: Result<(), Halt>,
    pub logs: Vec<Log>,
}

/// What a race finds: the number of its last line, and the tally of all facts before it.
#[derive(Drop)]
pub struct Before {
    pub line: u32,
    pub tally: Tally,
}

/// Runs a race: the lines of control are performed while the workers of the bursts claim. What both
/// did then stands in one run, the claims that got a number are emitted, and all of it is told.
pub fn run_race<T: Threads + Sync, K, R: Preparing<K>, G: Gate + Sync>(
    rt: &T,
    mut stage: Stage,
    bursts: &[Burst],
    control: Vec<Numbered>,
    recorder: &mut R,
    outlet: &mut K,
    gate: &G,
) -> (Stage, Result<(), Halt>)
    ensures did { DidRace R.Took R.Broke bursts.now control.items (moment stage outlet.old)
        (moment result.0 outlet.new) result.1 }
    ensures seats { NoMoreOut stage.words result.0.words }
{
    let before = Before {
        line: stage.line,
        tally: stage.tally.copied(),
    };
    let crew = match stage.crew(bursts) {
        Ok(crew) => crew,
        Err(halt) => return (stage, Err(halt)),
    };
    let (mut stage, ran) = run_beside(rt, stage, control, crew, gate);
    let outcome = stage.end_race(before, ran, recorder, outlet, gate);
    (stage, outcome)
}

/// Control's lines are performed in this thread while the workers do their jobs in others; then all
/// seats come back.
fn run_beside<T: Threads + Sync, G: Gate + Sync>(
    rt: &T,
    stage: Stage,
    control: Vec<Numbered>,
    crew: Crew,
    gate: &G,
) -> (Stage, Ran)
    requires { IsReady stage crew }
    ensures ran { RanBeside control.items crew.workers.items stage result.0 result.1 }
    ensures seats { (first : List ControlAt) → OutFor crew.workers.items first stage.words
        → NoMoreOut first result.0.words }
{
    let Crew {
        handles,
        mut workers,
        logs,
    } = crew;
    let kept = KeptEvents::new(stage.alloc);
    let mut runner = Runner {
        stage,
        control,
        kept,
        came: Ok(()),
        gate,
    };
    beside(
        rt,
        handles.as_slice(),
        workers.as_mut_slice(),
        gate,
        &mut runner,
    );
    let Runner {
        mut stage,
        control: _,
        kept,
        came,
        gate: _,
    } = runner;
    let logs = stage.dismiss(workers, logs);
    let steps = stage.take_steps();
    let ran = Ran {
        steps,
        kept,
        came,
        logs,
    };
    (stage, ran)
}

impl Stage {
    // ---- limits

    /// The first limit of which bursts ask for more than the air leaves.
    fn excess(&self, bursts: &[Burst]) -> Option<Which>
        ensures { (w : World) → IsReached StandsFor w self.now
            → result ≡ option_map limit_of (air_excess bursts.now w) }
    {
        let frames = MAX_FRAMES.saturating_sub(self.frames.len() as u64);
        if !frames_fit(bursts, frames) {
            return Some(Which::Frames);
        }
        if !octets_fit(bursts, OCTETS_MAX.saturating_sub(self.lan.octets())) {
            return Some(Which::Octets);
        }
        None
    }

    // ---- workers

    /// Hires the workers of bursts, and takes all memory for their work, unless the bursts ask for
    /// more than a limit leaves. Their seats alone are out then, and after an error none of them is.
    fn crew(&mut self, bursts: &[Burst]) -> Result<Crew, Halt>
        ensures hired { (w : World) → IsReached StandsFor w self.old
            → HaveSeats bursts.now self.old
            → IfOk result (λ crew. AreHired w (workers_of bursts.now) self.old self.new
            crew.workers.items × (excess_of bursts.now w ≡ None)) }
        ensures ready { IfOk result (IsReady self.new) }
        ensures unhired { (w : World) (control : List NumberedAt) → IsReached StandsFor w self.old
            → HaveSeats bursts.now self.old → IfErr result (IsUnhired w bursts.now control) }
        ensures tally { OnErr result (self.new.tally ≡ self.old.tally) }
        ensures seats { MatchResult result
            (λ crew. OutFor crew.workers.items self.old.words self.new.words)
            (λ _. NoMoreOut self.old.words self.new.words) }
    {
        if let Some(which) = self.excess(bursts) {
            return Err(Halt::Limit(which));
        }
        law_words_that_tell_keep_up();
        law_caught_up_words_keep_up();
        let handles = self.words.handles(self.alloc)?;
        let mut workers = Vec::new(self.alloc);
        let mut logs = Vec::new(self.alloc);
        if let Err(halt) = self.enlist(bursts, &mut workers, &mut logs) {
            self.dismiss(workers, logs);
            return Err(halt);
        }
        Ok(Crew {
            handles,
            workers,
            logs,
        })
    }

    /// Hires the workers of bursts and begins their race, unless there are too few numbers for it. Where
    /// that fails, those that were hired so far are left. No seat but theirs went out.
    fn enlist(
        &mut self,
        bursts: &[Burst],
        workers: &mut Vec<Worker>,
        logs: &mut Vec<Log>,
    ) -> Result<(), Halt>
        requires none { workers.old.items ≡ [] }
        requires empty { logs.old.items ≡ [] }
        ensures enlisted { HaveSeats bursts.now self.old → OnOk result
            (HasEnlisted (workers_of bursts.now) self.old self.new workers.new.items) }
        ensures unlisted { HaveSeats bursts.now self.old → IfErr result
            (IsUnlisted (workers_of bursts.now) self.old) }
        ensures fresh { All IsNew workers.new.items }
        ensures seats { OutFor workers.new.items self.old.words self.new.words }
        ensures tables { tables_of self.new.words ≡ tables_of self.old.words }
        ensures room { HaveRoom self.new workers.new.items logs.new.items (vec_capacity logs.new) }
        ensures tally { self.new.tally ≡ self.old.tally }
    {
        self.hire_all(bursts, workers, logs)?;
        if !self.begin_race(workers) {
            return Err(Halt::Limit(Which::Frames));
        }
        Ok(())
    }

    /// Hires the workers of bursts, burst by burst; one for whom there is no seat is left out. An error
    /// leaves those that were hired so far. No seat but theirs went out.
    fn hire_all(
        &mut self,
        bursts: &[Burst],
        workers: &mut Vec<Worker>,
        logs: &mut Vec<Log>,
    ) -> Result<(), AllocError>
        requires none { workers.old.items ≡ [] }
        requires empty { logs.old.items ≡ [] }
        ensures hired { HaveSeats bursts.now self.old
            → OnOk result (HiredAll (workers_of bursts.now) self.old self.new workers.new.items) }
        ensures fresh { All IsNew workers.new.items }
        ensures seats { OutFor workers.new.items self.old.words self.new.words }
        ensures room { HaveRoom self.new workers.new.items logs.new.items (vec_capacity logs.new) }
        ensures moved { HasMoved self.old self.new }
    {
        for burst in bursts {
            for place in 0..burst.workers() {
                workers.reserve(1)?;
                logs.reserve(workers.len() + 1)?;
                if let Some(worker) = self.hire(burst, place)? {
                    workers.push_reserved(worker);
                }
            }
        }
        Ok(())
    }

    /// Hires the worker at a place of a burst, which takes a seat of its station's words, unless the
    /// station has none left. An error leaves its seat not out.
    fn hire(&mut self, burst: &Burst, place: u32) -> Result<Option<Worker>, AllocError>
        requires { place < burst.now.workers }
        ensures hired { IfOk result (λ hired. IfSome hired (λ worker.
            WasHired (worker_at burst.now place) self.old self.new worker)) }
        ensures tables { IfOk result (λ hired. IfSome hired (HasTable (tables_of self.new.words))) }
        ensures none { IfOk result (λ hired. IfNone hired
            (IsFull burst.now.station self.old × (self.new ≡ self.old))) }
        ensures back { OnErr result (NoMoreOut self.old.words self.new.words) }
        ensures moved { HasMoved self.old self.new }
    {
        let station = burst.station();
        let Some(sci) = self.lan.sci(station) else {
            return Ok(None);
        };
        let sender = Sender {
            station,
            sci,
            user: copied(self.alloc, burst.user())?,
        };
        let Some(seat) = self.words.seat(station) else {
            return Ok(None);
        };
        match Worker::new(self.alloc, sender, seat, share(burst, place)) {
            Ok(worker) => Ok(Some(worker)),
            Err((seat, err)) => {
                self.words.join(station, seat);
                Err(err)
            }
        }
    }

    /// A race begins, whose workers were hired: each has a user frame, and what control performs is
    /// kept. It doesn't where there are too few numbers for user frames or packets.
    fn begin_race(&mut self, workers: &[Worker]) -> bool
        ensures { BeginsRace workers.now self.old self.new result }
    {
        let Some(left) = MAX_USERS.checked_sub(self.users) else {
            return false;
        };
        if (left as usize) < workers.len() || !self.has_numbers_for(workers) {
            return false;
        }
        self.users += workers.len() as u32;
        self.raced = true;
        self.steps = Some(Vec::new(self.alloc));
        true
    }

    /// Whether there are packet numbers for all jobs of workers, where some may be lost.
    fn has_numbers_for(&self, workers: &[Worker]) -> bool
        ensures few { result ≡ true
            → self.now.tally.claims + (jobs_of workers.now + 16) < 2 ^ 32 }
        ensures over { result ≡ false
            → most_claimed < self.now.tally.claims + jobs_of workers.now }
    {
        let Some(mut left) = MAX_CLAIMED.checked_sub(self.tally.claims()) else {
            return false;
        };
        for worker in workers {
            let jobs = worker.jobs() as u64;
            if left < jobs {
                return false;
            }
            left -= jobs;
        }
        true
    }

    /// The workers of a race are done, or begin no work: their seats come back. Their logs, in their
    /// order.
    fn dismiss(&mut self, workers: Vec<Worker>, mut logs: Vec<Log>) -> Vec<Log>
        requires { HaveRoom self.old workers.items logs.items (vec_capacity logs) }
        ensures logs { result.items ≡ map (λ w. w.log) workers.items }
        ensures joined { WereJoined workers.items self.old.words self.new.words }
        ensures same { self.new ≡ record self.old { words = self.new.words } }
    {
        for worker in workers {
            let station = worker.station();
            let (seat, log) = worker.finish();
            self.words.join(station, seat);
            logs.push_reserved(log);
        }
        logs
    }

    // ---- control

    /// Performs the deeds of control, one after the other.
    pub fn control<K, R: Recorder<K>, G: Gate>(
        &mut self,
        control: Vec<Numbered>,
        recorder: &mut R,
        outlet: &mut K,
        gate: &G,
    ) -> Result<(), Halt>
        ensures { Did R.Took R.Broke (control_act control.items)
            (moment self.old outlet.old) (moment self.new outlet.new) result }
    {
        for kept in control {
            self.controlled(kept, recorder, outlet, gate)?;
        }
        Ok(())
    }

    /// Performs a deed of control, unless the air has no such frame.
    fn controlled<K, R: Recorder<K>, G: Gate>(
        &mut self,
        kept: Numbered,
        recorder: &mut R,
        outlet: &mut K,
        gate: &G,
    ) -> Result<(), Halt>
        ensures { Did R.Took R.Broke (controlled kept)
            (moment self.old outlet.old) (moment self.new outlet.new) result }
    {
        self.line = kept.number();
        let deed = kept.deed();
        if let Some(kind) = self.wrong_frame(&deed) {
            return Err(self.refused(kind));
        }
        self.perform(deed, recorder, outlet, gate)
    }

    /// The steps that were kept, if any; no more are kept.
    fn take_steps(&mut self) -> Vec<Step>
        ensures steps { IfSome self.old.steps (λ steps. result.items ≡ steps.items) }
        ensures same { self.new ≡ record self.old { steps = None } }
    {
        match self.steps.take() {
            Some(steps) => steps,
            None => Vec::new(self.alloc),
        }
    }

    // ---- behind the race

    /// What control and the workers did stands in one run, and all that it shows is told, once it is
    /// ready.
    fn end_race<K, R: Preparing<K>, G: Gate>(
        &mut self,
        before: Before,
        ran: Ran,
        recorder: &mut R,
        outlet: &mut K,
        gate: &G,
    ) -> Result<(), Halt>
        ensures ends { EndsRace R.Took R.Broke before ran (moment self.old outlet.old)
            (moment self.new outlet.new) result }
        ensures seats { NoMoreOut self.old.words self.new.words }
    {
        let Before { line, tally } = before;
        self.line = line;
        self.tally = tally.copied();
        match self.weave(ran, gate) {
            Ok((shown, came)) => match shown.prepare(self.lan.names(), recorder) {
                Ok(count) => {
                    tell_all(count, recorder, outlet)?;
                    came
                }
                Err(_) => {
                    self.tally = tally;
                    Err(Halt::Memory)
                }
            },
            Err(_) => {
                self.tally = tally;
                Err(Halt::Memory)
            }
        }
    }

    /// The events of control and the claims of the workers stand in one run; unless the group stopped,
    /// the frames of these are emitted. What all of it shows, and how it came to its end. An error is
    /// want of memory.
    fn weave<G: Gate>(
        &mut self,
        ran: Ran,
        gate: &G,
    ) -> Result<(KeptEvents, Result<(), Halt>), AllocError>
        ensures weaves { Weaves ran self.old self.new result }
        ensures seats { NoMoreOut self.old.words self.new.words }
    {
        let Ran {
            steps,
            kept,
            came,
            logs,
        } = ran;
        law_a_race_of_workers_is_a_race();
        law_few_numbers_of_a_race_are_unused();
        law_words_catch_up_with_a_race();
        law_frames_of_a_race_are_protected();
        law_cards_of_a_race_are_right();
        if is_memory(came) {
            return Err(AllocError);
        }
        let events = merge(self.alloc, &steps, &logs)?;
        let frames = taken_frames(self.alloc, &events, logs)?;
        let mut shown = shown_in(self.alloc, &events, kept, &frames, &mut self.tally)?;
        if is_stop(came) {
            return Ok((shown, came));
        }
        let count = frames.len();
        self.lan.settle(frames)?;
        let emitted = self.emit_all(count, &mut Keeping, &mut shown, gate);
        if is_memory(emitted) {
            return Err(AllocError);
        }
        Ok((shown, came.and(emitted)))
    }

    /// So many frames that wait are emitted.
    fn emit_all<K, R: Recorder<K>, G: Gate>(
        &mut self,
        count: usize,
        recorder: &mut R,
        outlet: &mut K,
        gate: &G,
    ) -> Result<(), Halt>
        ensures did { Did R.Took R.Broke (times count (happen events.Emit))
            (moment self.old outlet.old) (moment self.new outlet.new) result }
        ensures words { self.new.words ≡ self.old.words }
    {
        for _ in 0..count {
            self.happen(&Event::Emit, None, recorder, outlet, gate)?;
        }
        Ok(())
    }
}

/// Whether memory was wanting.
fn is_memory(came: Result<(), Halt>) -> bool
    ensures { result ≡ is_memory came }
{
    match came {
        Err(Halt::Memory) => true,
        _ => false,
    }
}

/// Whether a group stopped: it did where control ended early, unless a line was refused, but for
/// want of draws.
fn is_stop(came: Result<(), Halt>) -> bool
    ensures { result ≡ has_stopped came }
{
    match came {
        Ok(()) => false,
        Err(Halt::Trace { kind, .. }) => matches!(kind, Kind::DrawsSpent),
        Err(_) => true,
    }
}

/// Whether bursts ask for so many frames at most.
fn frames_fit(bursts: &[Burst], mut left: u64) -> bool
    ensures { result ≡ not (nat_lt left (frames_asked bursts.now)) }
{
    for burst in bursts {
        let asked = u64::from(burst.frames());
        if left < asked {
            return false;
        }
        left -= asked;
    }
    true
}

/// Whether their frames have so many octets at most.
fn octets_fit(bursts: &[Burst], mut left: u64) -> bool
    ensures { result ≡ not (nat_lt left (octets_asked bursts.now)) }
{
    for burst in bursts {
        let asked = octets_of(burst);
        if left < asked {
            return false;
        }
        left -= asked;
    }
    true
}

/// How many octets the frames of a burst have.
fn octets_of(burst: &Burst) -> u64
    ensures { result ≡ burst.now.frames * frame_octets burst.now.user }
{
    u64::from(burst.frames()) * (burst.user().body.len() as u64 + AROUND)
}

/// How many frames of a burst the worker at a place sends.
fn share(burst: &Burst, place: u32) -> u32
    requires { place < burst.now.workers }
    ensures { result ≡ share burst.now.frames burst.now.workers place }
{
    let each = burst.frames() / burst.workers();
    if place < burst.frames() % burst.workers() {
        each + 1
    } else {
        each
    }
}

/// A copy of a user frame.
fn copied(alloc: Global, user: &UserFrame) -> Result<UserFrame, AllocError>
    ensures { IfOk result (λ copy. copy ≡ user.now) }
{
    Ok(UserFrame {
        destination: user.destination,
        body: user.body.copied(alloc)?,
    })
}
