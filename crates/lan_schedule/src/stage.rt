//! A group at work: the lines after the first station are performed on it.

ghost use Rattle.std.specs.Prelude.{◌≡◌, ◌==◌, ◌<◌, ◌≤◌, ◌+◌, ◌++◌, true, is_some, length};
ghost use Rattle.std.specs.Prelude.{◌⊎◌, OnOk, OnErr, IfOk, IfErr, List, [], false, option_map};
ghost use Rattle.std.specs.Option.{option_copied};
ghost use Rattle.lan_base.specs.Name.{IsName};
ghost use Rattle.lan_core.specs.Types.{IsTyped};
ghost use Rattle.gcm_frames.specs.Protected.{IsSci};
ghost use Rattle.lan_core.specs.declared.event.Event.TheVariants as events;
ghost use Rattle.trace_text.specs.Writing.{IsInForm};
ghost use Rattle.lan_core.specs.declared.fact.Fact.{Fact};
ghost use Rattle.fact_tally.specs.Summary.{counts};
ghost use Rattle.trace_acts.specs.declared.halt.Halt.{Halt};
ghost use Rattle.mka_kdf.specs.Kdf.{HasWrongLength};
ghost use Rattle.trace_acts.specs.Places.{is_race};
ghost use Rattle.trace_acts.specs.Settings.{settings_of as chosen_settings};
ghost use Rattle.lan_schedule.specs.World.{World, mark, place_in};
ghost use Rattle.lan_schedule.specs.Sound.{IsTidy};
ghost use Rattle.lan_schedule.specs.Acts.{happen, seq, unless};
ghost use Rattle.lan_schedule.specs.inside.Phased.{act_apart};
ghost use Rattle.lan_schedule.specs.Deeds.{IsInRange};
ghost use Rattle.lan_schedule.specs.Lines.{act, begin, cut_in, mended_in, send_new};
ghost use Rattle.lan_schedule.specs.Ends.{moment};
ghost use Rattle.lan_schedule.specs.Stages.{StandsFor};
ghost use Rattle.lan_schedule.specs.inside.Beside.{IsOver};
ghost use Rattle.lan_schedule.specs.Races.{most_claimed, most_users};
ghost use Rattle.lan_base.specs.declared.frame.UserFrame.{UserFrame};
ghost use Rattle.lan_core.specs.declared.settings.Settings.{Settings};
ghost use Rattle.lan_core.specs.Run.{Run};
ghost use Rattle.lan_core.specs.Standing.{StandsFor as GroupStandsFor};
ghost use Rattle.lan_schedule.specs.inside.Recording.{station_in, epoch_of, KeepsStep, KeepSeats};
ghost use Rattle.lan_schedule.specs.declared.stage.Stage.{Stage};
ghost use Rattle.lan_core.specs.Batches.{IsChecked};
ghost use Rattle.lan_schedule.specs.inside.Staged.{Did, DidWhere, Happened, HasStepped, WentOn};
ghost use Rattle.lan_schedule.specs.inside.Staged.{Changed, IsOpening};

use crate::deed::Deed;
use crate::frames::Frames;
use crate::places::{octet_of, place};
use crate::recorder::Recorder;
use crate::words::Words;
use fact_tally::Tally;
use lan_base::{Name, Octets, Sci, UserFrame};
use lan_core::{Event, Fact, Facts, Lan, Settings, StepError, Which};
use mka_kdf::GroupFault;
use packet_claims::Gate;
use rx_slots::Checked;
use station_words::{law_few_claims_spend_no_words, law_words_keep_a_run_thrifty};
use std::alloc::{AllocError, Global};
use std::thread::Threads;
use trace_acts::{Choices, Halt, Kind, Links, Supply, halt_of, settings_of, supply_of};
use trace_text::Line;
use worker_races::merge::Step;
use worker_races::{law_an_event_tells_the_words, law_control_goes_on};

/// The greatest count of user frames that lines name.
pub const MAX_USERS: u32 = 4_294_967_294;

/// The greatest count of claims: a race may lose 16 numbers of a key.
pub const MAX_CLAIMED: u64 = 4_294_967_279;

/// A group, and what is kept beside it.
#[derive(Drop)]
pub struct Stage {
    pub alloc: Global,
    pub lan: Lan,
    pub draws: Supply,
    pub lag: u32,
    /// The number of the line that is performed.
    pub line: u32,
    /// How many lines sent user data.
    pub users: u32,
    pub frames: Frames,
    pub cuts: Links,
    pub words: Words,
    /// Whether a race was begun.
    pub raced: bool,
    /// How many facts there were of each kind.
    pub tally: Tally,
    /// In the midst of a race, what control performed so far.
    pub steps: Option<Vec<Step>>,
}

impl Stage {
    /// A group by what was chosen, of which nothing happened yet. The line of this number begins. Where the
    /// group's name isn't what it may be, the line isn't allowed.
    pub fn new(alloc: Global, chosen: &Choices, line: u32) -> Result<Self, Halt>
        ensures stands { (w : World) → IsTidy w → is_some chosen.now.group ≡ true
            → IsOpening w chosen.now line → IfOk result (StandsFor w) }
        ensures words { IfOk result (λ stage. stage.words ≡ []) }
        ensures memory { IfErr result (λ halt. (halt ≡ Halt.Memory)
            ⊎ HasWrongLength (chosen_settings chosen.now).ckn) }
    {
        let settings = settings_of(alloc, chosen)?;
        let draws = supply_of(alloc, chosen)?;
        let lan = group_of(alloc, settings, line)?;
        Ok(Stage {
            alloc,
            lan,
            draws,
            lag: chosen.lag.unwrap_or(0),
            line,
            users: 0,
            frames: Frames::new(alloc),
            cuts: Links::new(alloc),
            words: Words::new(alloc),
            raced: false,
            tally: Tally::new(),
            steps: None,
        })
    }

    // ---- events

    /// An event happens, with the user frame that a claim names, and what it shows is counted and
    /// told.
    pub fn happen<K, R: Recorder<K>, G: Gate>(
        &mut self,
        event: &Event,
        user: Option<&UserFrame>,
        recorder: &mut R,
        outlet: &mut K,
        gate: &G,
    ) -> Result<(), Halt>
        requires { IsTyped event.now }
        ensures { Happened R.Took R.Broke (option_copied user.entry) event.now
            (moment self.old outlet.old) (moment self.new outlet.new) result }
    {
        let before = self.epoch(event);
        let facts = match self.lan.step(event, user, &mut self.draws) {
            Ok(facts) => facts,
            Err(StepError::Stopped(stop)) => return Err(halt_of(stop, self.line)),
            Err(StepError::Memory) => return Err(Halt::Memory),
        };
        self.go_on(event, before, facts, recorder, outlet, gate)
    }

    /// A protected frame reaches a station that checked it, and what it shows is counted and told.
    pub fn admit<K, R: Recorder<K>, G: Gate>(
        &mut self,
        frame: u32,
        station: u8,
        checked: Checked,
        recorder: &mut R,
        outlet: &mut K,
        gate: &G,
    ) -> Result<(), Halt>
        ensures { DidWhere (λ w. IsChecked w.run frame station checked) R.Took R.Broke
            (happen (events.Deliver frame station))
            (moment self.old outlet.old) (moment self.new outlet.new) result }
    {
        let deliver = Event::Deliver { frame, station };
        let before = self.epoch(&deliver);
        let facts = match self.lan.admit(station, frame, checked) {
            Ok(facts) => facts,
            Err(StepError::Stopped(stop)) => return Err(halt_of(stop, self.line)),
            Err(StepError::Memory) => return Err(Halt::Memory),
        };
        self.go_on(&deliver, before, facts, recorder, outlet, gate)
    }

    /// An event happened to the group: the rest follows it, and what it showed is counted and told.
    /// The epoch is that of before, in the midst of a race.
    fn go_on<K, R: Recorder<K>, G: Gate>(
        &mut self,
        event: &Event,
        before: Option<u32>,
        facts: Facts,
        recorder: &mut R,
        outlet: &mut K,
        gate: &G,
    ) -> Result<(), Halt>
        requires { IsTyped event.now }
        ensures { (earlier : Stage) → HasStepped event.now before earlier self.old
            → WentOn R.Took R.Broke event.now facts self.old (moment earlier outlet.old)
            (moment self.new outlet.new) result }
    {
        law_words_keep_a_run_thrifty();
        law_an_event_tells_the_words();
        law_control_goes_on();
        self.frames.put(facts.as_slice())?;
        self.words
            .follow(self.alloc, &self.lan, event, facts.as_slice(), gate)?;
        let after = self.epoch(event);
        keep(&mut self.steps, self.alloc, event, before, after)?;
        count_all(&mut self.tally, facts.as_slice());
        recorder.record(self.lan.names(), facts, outlet)?;
        Ok(())
    }

    /// The epoch of the key that transmits at the station of an event, which only a race asks for.
    fn epoch(&self, event: &Event) -> Option<u32>
        ensures { is_some self.now.steps ≡ true
            → (settings : Settings) (users : List UserFrame) (r : Run)
            → GroupStandsFor settings users self.now.lan r
            → result ≡ epoch_of settings r event.now }
    {
        if self.steps.is_none() {
            return None;
        }
        let (_, epoch) = self.lan.transmitting(station_of(event)?)?;
        Some(epoch)
    }

    // ---- user data

    /// A station sends a user frame, unless it has no number left: it claims a packet number, and what
    /// got one is emitted.
    fn send<K, R: Recorder<K>, G: Gate>(
        &mut self,
        station: u8,
        user: &UserFrame,
        recorder: &mut R,
        outlet: &mut K,
        gate: &G,
    ) -> Result<(), Halt>
        ensures { Did R.Took R.Broke (send_new user.now station)
            (moment self.old outlet.old) (moment self.new outlet.new) result }
    {
        if !self.has_numbers() {
            return Err(Halt::Limit(Which::Frames));
        }
        law_few_claims_spend_no_words();
        let users = self.users + 1;
        self.users = users;
        let pn = self.words.claim(station, gate);
        let claim = Event::Claim {
            station,
            user: users,
            pn,
        };
        self.happen(&claim, Some(user), recorder, outlet, gate)?;
        self.emit(pn, recorder, outlet, gate)
    }

    /// Whether there are numbers for a user frame more, and a packet number: a race may have lost some.
    fn has_numbers(&self) -> bool
        ensures few { result ≡ true → (self.now.users + 1 ≤ most_users)
            × (self.now.tally.claims + 1 ≤ most_claimed) }
        ensures over { result ≡ false → IsOver self.now 1 1 }
    {
        self.users < MAX_USERS && self.tally.claims() < MAX_CLAIMED
    }

    /// What was claimed is emitted, where there is a number.
    fn emit<K, R: Recorder<K>, G: Gate>(
        &mut self,
        pn: u32,
        recorder: &mut R,
        outlet: &mut K,
        gate: &G,
    ) -> Result<(), Halt>
        ensures { Did R.Took R.Broke (unless (pn == 0) (happen events.Emit))
            (moment self.old outlet.old) (moment self.new outlet.new) result }
    {
        if pn == 0 {
            return Ok(());
        }
        self.happen(&Event::Emit, None, recorder, outlet, gate)
    }

    // ---- names

    /// How many stations there are.
    pub fn count(&self) -> u8
        ensures { length self.now.lan.names ≤ 255 → result ≡ length self.now.lan.names }
    {
        octet_of(self.lan.names().len())
    }

    /// The place of the station of a name; where there is none, the count of stations.
    pub fn place(&self, name: &Name) -> u8
        ensures { length self.now.lan.names ≤ 255
            → result ≡ place_in name.now self.now.lan.names }
    {
        place(self.lan.names(), name)
    }

    // ---- lines

    /// Performs a line outside a race, which begins none.
    pub fn command<T: Threads + Sync, K, R: Recorder<K>, G: Gate>(
        &mut self,
        rt: &T,
        line: Line,
        recorder: &mut R,
        outlet: &mut K,
        gate: &G,
    ) -> Result<(), Halt>
        requires form { IsInForm line }
        requires apart { is_race line ≡ false }
        ensures { Did R.Took R.Broke (act_apart line)
            (moment self.old outlet.old) (moment self.new outlet.new) result }
    {
        match self.resolve(line) {
            Err(kind) => Err(self.refused(kind)),
            Ok(
                Deed::Feed {
                    first,
                    last,
                    station,
                },
            ) => self.feed_in_batches(rt, first, last, station, recorder, outlet, gate),
            Ok(deed) => self.perform(deed, recorder, outlet, gate),
        }
    }

    /// How the line that is performed ends a trace, where it is refused.
    pub fn refused(&self, kind: Kind) -> Halt
        ensures { result ≡ Halt.Trace self.now.line kind }
    {
        Halt::Trace {
            line: self.line,
            kind,
        }
    }

    /// Performs a deed.
    pub fn perform<K, R: Recorder<K>, G: Gate>(
        &mut self,
        deed: Deed,
        recorder: &mut R,
        outlet: &mut K,
        gate: &G,
    ) -> Result<(), Halt>
        requires { IsInRange deed }
        ensures { Did R.Took R.Broke (act deed)
            (moment self.old outlet.old) (moment self.new outlet.new) result }
    {
        match deed {
            Deed::Start {
                name,
                sci,
                priority,
            } => self.start(name, sci, priority, recorder, outlet, gate),
            Deed::Tick { rounds } => self.rounds(rounds, recorder, outlet, gate),
            Deed::TickOne { station, ticks } => self.ticks(station, ticks, recorder, outlet, gate),
            Deed::Flow { rounds } => self.flow(rounds, recorder, outlet, gate),
            Deed::Deliver { frame, station } => {
                self.deliver(frame, station, recorder, outlet, gate)
            }
            Deed::Feed {
                first,
                last,
                station,
            } => self.feed(first, last, station, recorder, outlet, gate),
            Deed::Spread { frame } => self.spread(frame, recorder, outlet, gate),
            Deed::Lose { frame } => {
                self.lose(frame);
                Ok(())
            }
            Deed::Cut { from, to } => {
                self.cut(from, to)?;
                Ok(())
            }
            Deed::Mend { from, to } => {
                self.mend(from, to);
                Ok(())
            }
            Deed::Restart { station } => self.restart(station, recorder, outlet, gate),
            Deed::Send { station, user } => self.send(station, &user, recorder, outlet, gate),
            Deed::Inject { station, octets } => {
                self.inject(station, octets, recorder, outlet, gate)
            }
        }
    }

    /// A station starts.
    pub fn start<K, R: Recorder<K>, G: Gate>(
        &mut self,
        name: Name,
        sci: Sci,
        priority: u32,
        recorder: &mut R,
        outlet: &mut K,
        gate: &G,
    ) -> Result<(), Halt>
        requires { IsSci sci }
        ensures { priority ≤ 255
            → Did R.Took R.Broke (seq begin (happen (events.Start name sci priority)))
            (moment self.old outlet.old) (moment self.new outlet.new) result }
    {
        law_names_are_spelled(&name);
        let start = Event::Start {
            name,
            sci,
            priority: octet_of(priority as usize),
        };
        self.happen(&start, None, recorder, outlet, gate)
    }

    /// A frame reaches a station.
    pub fn deliver<K, R: Recorder<K>, G: Gate>(
        &mut self,
        frame: u32,
        station: u8,
        recorder: &mut R,
        outlet: &mut K,
        gate: &G,
    ) -> Result<(), Halt>
        ensures { Did R.Took R.Broke (happen (events.Deliver frame station))
            (moment self.old outlet.old) (moment self.new outlet.new) result }
    {
        let deliver = Event::Deliver { frame, station };
        self.happen(&deliver, None, recorder, outlet, gate)
    }

    /// A frame waits for no round any more.
    fn lose(&mut self, frame: u32)
        ensures { Changed (mark frame) self.old self.new }
    {
        self.frames.mark(frame);
    }

    /// A link is cut.
    fn cut(&mut self, from: u8, to: u8) -> Result<(), AllocError>
        ensures ok { OnOk result (Changed (cut_in from to) self.old self.new) }
        ensures tally { self.new.tally ≡ self.old.tally }
        ensures seats { KeepSeats self.old.words self.new.words }
    {
        self.cuts.cut(from, to)?;
        Ok(())
    }

    /// A link is mended.
    fn mend(&mut self, from: u8, to: u8)
        ensures { Changed (mended_in from to) self.old self.new }
    {
        self.cuts.mend(from, to);
    }

    /// A station begins a new life.
    fn restart<K, R: Recorder<K>, G: Gate>(
        &mut self,
        station: u8,
        recorder: &mut R,
        outlet: &mut K,
        gate: &G,
    ) -> Result<(), Halt>
        ensures { Did R.Took R.Broke (happen (events.Restart station))
            (moment self.old outlet.old) (moment self.new outlet.new) result }
    {
        self.happen(&Event::Restart { station }, None, recorder, outlet, gate)
    }

    /// Foreign octets reach a station.
    fn inject<K, R: Recorder<K>, G: Gate>(
        &mut self,
        station: u8,
        octets: Octets,
        recorder: &mut R,
        outlet: &mut K,
        gate: &G,
    ) -> Result<(), Halt>
        ensures { Did R.Took R.Broke (happen (events.Inject station octets))
            (moment self.old outlet.old) (moment self.new outlet.new) result }
    {
        octets.as_slice();
        let inject = Event::Inject { station, octets };
        self.happen(&inject, None, recorder, outlet, gate)
    }
}

/// A group to which nothing happened. A name of a wrong length isn't allowed in the line of this number.
fn group_of(alloc: Global, settings: Settings, line: u32) -> Result<Lan, Halt>
    ensures stands { IfOk result (λ lan. (users : List UserFrame)
        → GroupStandsFor settings users lan []) }
    ensures length { OnErr result (HasWrongLength settings.ckn) }
{
    match Lan::new(alloc, settings) {
        Ok(lan) => Ok(lan),
        Err(GroupFault::CknLength) => Err(Halt::Trace {
            line,
            kind: Kind::Order,
        }),
    }
}

/// The station of an event; a start, a claim and an emission have none here.
fn station_of(event: &Event) -> Option<u8>
    ensures { result ≡ station_in event.now }
{
    match event {
        Event::Tick { station, .. }
        | Event::Deliver { station, .. }
        | Event::Restart { station }
        | Event::Inject { station, .. } => Some(*station),
        Event::Start { .. } | Event::Claim { .. } | Event::Emit => None,
    }
}

/// In the midst of a race an event is kept, with the epoch that transmitted at its station before it
/// and the one that does now.
fn keep(
    steps: &mut Option<Vec<Step>>,
    alloc: Global,
    event: &Event,
    before: Option<u32>,
    after: Option<u32>,
) -> Result<(), AllocError>
    ensures { OnOk result (KeepsStep event.now before after
        (option_map (λ steps. steps.items) steps.old)
        (option_map (λ steps. steps.items) steps.new)) }
{
    let Some(steps) = steps else {
        return Ok(());
    };
    steps.push(Step::of(alloc, event, before, after)?)?;
    Ok(())
}

/// The octets of a name spell one.
fn law_names_are_spelled(name: &Name)
    ensures { IsName name.now }
{
    name.octets();
}

/// Facts are counted.
pub fn count_all(tally: &mut Tally, facts: &[Fact])
    ensures { (shown : List Fact) → tally.old ≡ counts shown
        → tally.new ≡ counts (shown ++ facts.now) }
{
    for fact in facts {
        tally.add(fact);
    }
}
