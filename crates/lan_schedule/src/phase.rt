//! Where in a race the lines stand, and which lines are kept for it.

ghost use Rattle.std.specs.Prelude.{◌≡◌, ◌⊎◌, ◌+◌, ◌∷◌, ◌++◌, [], nat_lt, true, false, not};
ghost use Rattle.std.specs.Prelude.{IfOk, IfErr, None};
ghost use Rattle.lan_core.specs.Types.{IsUserFrame};
ghost use Rattle.trace_text.specs.Limits.{most_workers};
ghost use Rattle.trace_text.specs.Writing.{IsInForm};
ghost use Rattle.trace_acts.specs.declared.halt.Halt.{Halt};
ghost use Rattle.trace_acts.specs.Kinds.{first_of};
ghost use Rattle.lan_schedule.specs.World.{World};
ghost use Rattle.lan_schedule.specs.Races.{Bursting, Controlling, workers_at};
ghost use Rattle.lan_schedule.specs.Deeds.{IsInRange};
ghost use Rattle.lan_schedule.specs.Kinds.{too_many};
ghost use Rattle.lan_schedule.specs.Ends.{IsReached};
ghost use Rattle.lan_schedule.specs.Stages.{StandsFor};
ghost use Rattle.lan_schedule.specs.Standing.{phase_of};
ghost use Rattle.lan_schedule.specs.Woven.{is_controlling};
ghost use Rattle.lan_schedule.specs.inside.Phased.{is_inside, is_taken, is_end, Enters, Takes};
ghost use Rattle.lan_schedule.specs.inside.Phased.{Refused, refused_burst, refused_control};
ghost use Rattle.lan_schedule.specs.inside.Choosing.{MayControl};

use crate::deed::Deed;
use crate::stage::Stage;
use lan_base::UserFrame;
use std::marker::Model;
use std::mem::replace;
use trace_acts::{Halt, Kind};
use trace_text::{Line, MAX_BURSTS, MAX_CONTROL, MAX_WORKERS};

/// A burst: a station, how many workers it has there, how many frames they send in all, and of which
/// user data, which can be sent. Contracts see all four.
#[derive(Drop)]
pub struct Burst {
    station: u8,
    workers: u32,
    frames: u32,
    user: UserFrame,
}

impl Model for Burst {
    ghost use Rattle.lan_core.specs.Types.{IsUserFrame};
    ghost use Rattle.lan_schedule.specs.Races.{Burst as BurstAt};

    ghost Value = { BurstAt };

    ghost view = { λ b. record {
      station = b.station;
      workers = b.workers;
      frames = b.frames;
      user = b.user;
    } };

    ghost invariant = { λ b. IsUserFrame b.user };
}

impl Burst {
    /// The place of its station.
    pub fn station(&self) -> u8
        ensures { result ≡ self.now.station }
    {
        self.station
    }

    /// How many workers it has.
    pub fn workers(&self) -> u32
        ensures { result ≡ self.now.workers }
    {
        self.workers
    }

    /// How many frames they send in all.
    pub fn frames(&self) -> u32
        ensures { result ≡ self.now.frames }
    {
        self.frames
    }

    /// What each of them sends.
    pub fn user(&self) -> &UserFrame
        ensures value { result.now ≡ self.now.user }
        ensures fits { IsUserFrame result.now }
    {
        &self.user
    }
}

/// A deed of control that is kept, with the number of its line. Contracts see both.
#[derive(Drop)]
pub struct Numbered {
    number: u32,
    deed: Deed,
}

impl Model for Numbered {
    ghost use Rattle.lan_schedule.specs.Races.{Numbered as NumberedAt};

    ghost Value = { NumberedAt };

    ghost use Rattle.lan_schedule.specs.inside.Choosing.{MayControl};

    ghost view = { λ k. record { number = k.number; deed = k.deed } };

    ghost invariant = { λ k. MayControl k.deed };
}

impl Numbered {
    /// Its number.
    pub fn number(&self) -> u32
        ensures { result ≡ self.now.number }
    {
        self.number
    }

    /// Its deed.
    pub fn deed(self) -> Deed
        ensures value { result ≡ self.deed }
        ensures fits { MayControl result }
    {
        self.deed
    }
}

/// Where the lines stand.
#[derive(Drop)]
pub enum Phase {
    /// In no race.
    Apart,
    /// Behind `race`, where bursts come.
    Bursting(Vec<Burst>),
    /// Behind `while`, where the lines of control come.
    Controlling(Vec<Burst>, Vec<Numbered>),
}

impl Phase {
    /// Whether the lines stand inside a race.
    pub fn is_inside(&self) -> bool
        ensures { result ≡ is_inside (phase_of self.now) }
    {
        !matches!(self, Phase::Apart)
    }

    /// Whether a line belongs to a race: it stands inside one, or begins one.
    pub fn takes(&self, line: &Line) -> bool
        ensures { result ≡ is_taken (phase_of self.now) line.now }
    {
        self.is_inside() || matches!(line, Line::Race)
    }

    /// Whether a line ends a race, which is run then.
    pub fn is_end(&self, line: &Line) -> bool
        ensures { result ≡ is_end (phase_of self.now) line.now }
    {
        matches!(self, Phase::Controlling(..)) && matches!(line, Line::End)
    }

    /// Whether a race is kept that can be run: its lines of control come.
    pub fn controls(&self) -> bool
        ensures { result ≡ is_controlling (phase_of self.now) }
    {
        matches!(self, Phase::Controlling(..))
    }

    /// Takes a line that belongs to a race and doesn't end it: it is refused, or kept for the race.
    pub fn take(&mut self, stage: &Stage, line: Line) -> Result<(), Halt>
        requires { IsInForm line }
        ensures { (w : World) → IsReached StandsFor w stage.now
            → w.kept.phase ≡ phase_of self.old → is_taken (phase_of self.old) line ≡ true
            → is_end (phase_of self.old) line ≡ false → Takes line w self.new result }
    {
        let before = replace(self, Phase::Apart);
        *self = before.behind(stage, line)?;
        Ok(())
    }

    /// Where the lines stand behind a line that belongs to a race and doesn't end it, or why it is
    /// refused.
    fn behind(self, stage: &Stage, line: Line) -> Result<Self, Halt>
        requires { IsInForm line }
        ensures { (w : World) → IsReached StandsFor w stage.now
            → is_end (phase_of self) line ≡ false → is_taken (phase_of self) line ≡ true
            → Enters line w (phase_of self) result }
    {
        match self {
            Phase::Apart => Ok(Phase::Bursting(Vec::new(stage.alloc))),
            Phase::Bursting(bursts) => behind_race(bursts, stage, line),
            Phase::Controlling(bursts, control) => behind_while(bursts, control, stage, line),
        }
    }
}

/// Where the lines stand behind a line behind `race`, or why it is refused.
fn behind_race(bursts: Vec<Burst>, stage: &Stage, line: Line) -> Result<Phase, Halt>
    requires { IsInForm line }
    ensures { (w : World) → IsReached StandsFor w stage.now
        → Enters line w (Bursting bursts.items) result }
{
    match line {
        Line::While => {
            if bursts.is_empty() {
                return Err(stage.refused(Kind::Order));
            }
            Ok(Phase::Controlling(bursts, Vec::new(stage.alloc)))
        }
        Line::Burst {
            name,
            workers,
            frames,
            destination,
            body,
        } => {
            let burst = Burst {
                station: stage.place(&name),
                workers,
                frames,
                user: UserFrame { destination, body },
            };
            with_burst(bursts, stage, burst)
        }
        _ => Err(stage.refused(Kind::Order)),
    }
}

/// One burst more, or why it is refused.
fn with_burst(mut bursts: Vec<Burst>, stage: &Stage, burst: Burst) -> Result<Phase, Halt>
    ensures kept { IfOk result (λ phase. (phase_of phase ≡ Bursting (bursts.items ++ burst ∷ []))
        × (refused_burst burst bursts.items stage.now.lan.names ≡ None)) }
    ensures refused { IfErr result (λ halt. Refused
        (refused_burst burst bursts.items stage.now.lan.names) stage.now.line halt
        ⊎ (halt ≡ Halt.Memory)) }
{
    if let Some(kind) = refused_burst(&burst, &bursts, stage) {
        return Err(stage.refused(kind));
    }
    bursts.push(burst)?;
    Ok(Phase::Bursting(bursts))
}

/// Why a burst is refused behind others.
fn refused_burst(burst: &Burst, bursts: &[Burst], stage: &Stage) -> Option<Kind>
    ensures { result ≡ refused_burst burst.now bursts.now stage.now.lan.names }
{
    unless_allowed(
        bursts.len() < MAX_BURSTS,
        too_many(burst, bursts).or(stage.no_station(burst.station)),
    )
}

/// Whether a burst has more workers than its station may still have.
fn too_many(burst: &Burst, bursts: &[Burst]) -> Option<Kind>
    ensures { result ≡ too_many burst.now bursts.now }
{
    if are_few(bursts, burst.station, burst.workers) {
        None
    } else {
        Some(Kind::Range)
    }
}

/// Whether a station, which has workers in these bursts, may have so many others.
fn are_few(bursts: &[Burst], station: u8, workers: u32) -> bool
    ensures { result ≡ not (nat_lt most_workers (workers_at station bursts.now + workers)) }
{
    let mut left = MAX_WORKERS;
    for burst in bursts {
        if burst.station == station {
            if left < burst.workers {
                return false;
            }
            left -= burst.workers;
        }
    }
    workers <= left
}

/// Where the lines stand behind a line of control, which is kept, or why it is refused.
fn behind_while(
    bursts: Vec<Burst>,
    control: Vec<Numbered>,
    stage: &Stage,
    line: Line,
) -> Result<Phase, Halt>
    requires { IsInForm line }
    ensures { (w : World) → IsReached StandsFor w stage.now
        → is_end (Controlling bursts.items control.items) line ≡ false
        → Enters line w (Controlling bursts.items control.items) result }
{
    let Some(deed) = stage.deed(line) else {
        return Err(stage.refused(Kind::Order));
    };
    let control = with_deed(control, stage, deed)?;
    Ok(Phase::Controlling(bursts, control))
}

/// One deed of control more, or why it is refused.
fn with_deed(mut control: Vec<Numbered>, stage: &Stage, deed: Deed) -> Result<Vec<Numbered>, Halt>
    requires { IsInRange deed }
    ensures kept { IfOk result (λ all. (all.items
        ≡ control.items ++ record { number = stage.now.line; deed = deed } ∷ [])
        × (refused_control deed control.items stage.now.lan.names ≡ None)) }
    ensures refused { IfErr result (λ halt. Refused
        (refused_control deed control.items stage.now.lan.names) stage.now.line halt
        ⊎ (halt ≡ Halt.Memory)) }
{
    if let Some(kind) = refused_control(&deed, &control, stage) {
        return Err(stage.refused(kind));
    }
    control.push(Numbered {
        number: stage.line,
        deed,
    })?;
    Ok(control)
}

/// Why a deed is refused behind others of control.
fn refused_control(deed: &Deed, control: &[Numbered], stage: &Stage) -> Option<Kind>
    ensures { result ≡ refused_control deed.now control.now stage.now.lan.names }
{
    unless_allowed(
        deed.is_control() && control.len() < MAX_CONTROL,
        stage.wrong_station(deed),
    )
}

/// What is wrong with a line, unless it isn't allowed here.
fn unless_allowed(allowed: bool, wrong: Option<Kind>) -> Option<Kind>
    ensures { result ≡ first_of allowed wrong }
{
    if allowed { wrong } else { Some(Kind::Order) }
}
