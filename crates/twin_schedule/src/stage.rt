//! Two groups at work: the lines after the first station are performed on them.

ghost use Rattle.std.specs.Prelude.{◌≡◌, ◌<◌, ◌≤◌, ◌+◌, length, is_some, nat_eq, true, false, Some, None};
ghost use Rattle.std.specs.Prelude.{◌⊎◌, OnOk, IfOk, IfErr};
ghost use Rattle.std.specs.List.{position_or_len};
ghost use Rattle.std.specs.Option.{option_copied};
ghost use Rattle.std.specs.Cmp.Lexicographic.{pointwise};
ghost use Rattle.lan_base.specs.Ranges.{IsCkn};
ghost use Rattle.lan_core.specs.declared.stop.Which.{Which};
ghost use Rattle.cak_roll.specs.declared.event.TwinEvent.TheVariants as twins;
ghost use Rattle.cak_roll.specs.declared.event.GroupNumber.{GroupNumber};
ghost use Rattle.trace_text.specs.Writing.{IsInForm};
ghost use Rattle.trace_text.specs.twin.InForm.{IsInFormRoll};
ghost use Rattle.trace_acts.specs.declared.halt.Halt.{Halt};
ghost use Rattle.trace_acts.specs.declared.halt.Kind.{Kind};
ghost use Rattle.trace_acts.specs.Places.{is_elsewhere};
ghost use Rattle.twin_schedule.specs.World.{World, place, is_out};
ghost use Rattle.twin_schedule.specs.Acts.{happen, seq, look};
ghost use Rattle.twin_schedule.specs.Kinds.{group_of, may_be_second, refusal};
ghost use Rattle.twin_schedule.specs.Lines.{begin, restart, send_new, most_users, cut_in, mended_in};
ghost use Rattle.twin_schedule.specs.Lines.{deed, deed_plain};
ghost use Rattle.twin_schedule.specs.Ends.{moment, IsReached};
ghost use Rattle.twin_schedule.specs.Standing.{MayOpen};
ghost use Rattle.twin_schedule.specs.Stages.{StandsFor};
ghost use Rattle.twin_schedule.specs.inside.Choosing.{is_later, IsOpening, with_second};
ghost use Rattle.twin_schedule.specs.inside.Doing.{halt_by, Did, Happened};

use crate::choosing::opening_of;
use crate::moves::Turn;
use crate::party::Party;
use crate::recorder::TwinRecorder;
use crate::telling::{admit, put_all_senders, tell};
use cak_roll::{GroupNumber, Twin, TwinError, TwinEvent};
use lan_base::{Mac, Name, Octets, Sci, UserFrame};
use lan_core::{StepError, Which};
use std::alloc::{AllocError, Global};
use trace_acts::{Choices, Halt, Keyed, Kind, Links, Supply, halt_of, position, secret_of};
use trace_text::Line;
use trace_text::twin::RollLine;

/// The greatest count of user frames that lines name.
const MAX_USERS: u32 = 4_294_967_294;

/// Two groups, and what is kept beside them.
#[derive(Drop)]
pub struct Stage {
    pub alloc: Global,
    pub twin: Twin,
    pub draws: Supply,
    /// What was chosen before the first station.
    pub chosen: Choices,
    /// The key and the name of the second group, if it came.
    pub keyed: Option<Keyed>,
    /// The number of the line that is performed.
    pub line: u32,
    pub scis: Vec<Sci>,
    /// How many lines sent user data.
    pub users: u32,
    pub cuts: Links,
    pub first: Party,
    pub second: Party,
}

impl Stage {
    /// Two groups by what was chosen, in which nothing happened yet. The line of this number begins. Where
    /// a group can't be opened, the line isn't allowed.
    pub fn new(
        alloc: Global,
        chosen: Choices,
        keyed: Option<Keyed>,
        line: u32,
    ) -> Result<Self, Halt>
        ensures stands { (w : World) → is_some chosen.group ≡ true → IsOpening w chosen keyed line
            → IfOk result (StandsFor w) }
        ensures memory { is_some chosen.group ≡ true → MayOpen chosen.group keyed
            → IfErr result (λ halt. halt ≡ Halt.Memory) }
    {
        match opening_of(alloc, &chosen, &keyed, line) {
            Ok((draws, twin)) => Ok(Stage {
                alloc,
                twin,
                draws,
                chosen,
                keyed,
                line,
                scis: Vec::new(alloc),
                users: 0,
                cuts: Links::new(alloc),
                first: Party::new(alloc),
                second: Party::new(alloc),
            }),
            Err(halt) => Err(halt),
        }
    }

    /// The second group comes. One that is refused isn't allowed.
    fn take_second(&mut self, cak: &Octets, ckn: &Octets) -> Result<(), Halt>
        requires { (length cak.now ≡ 16) ⊎ (length cak.now ≡ 32) }
        ensures stands { OnOk result ((w : World) → StandsFor w self.old
            → StandsFor (with_second cak.now ckn.now w) self.new) }
        ensures memory { (w : World) → StandsFor w self.old → IsCkn ckn.now
            → may_be_second ckn.now w.kept.chosen.group w.kept.second ≡ true
            → IfErr result (λ halt. halt ≡ Halt.Memory) }
    {
        let cak = secret_of(cak.as_slice());
        match self.twin.second(cak, ckn.copied(self.alloc)?) {
            Ok(()) => {}
            Err(_) => return Err(self.order()),
        }
        self.keyed = Some(Keyed {
            cak,
            ckn: ckn.copied(self.alloc)?,
        });
        Ok(())
    }

    /// Why the trace ends where the groups go no further.
    fn halt_by(&self, error: TwinError) -> Halt
        ensures { result ≡ halt_by self.now.line error }
    {
        match error {
            TwinError::Failed(StepError::Stopped(stop)) => halt_of(stop, self.line),
            TwinError::Failed(StepError::Memory) => Halt::Memory,
            TwinError::NoSecond => self.order(),
        }
    }

    /// The line isn't allowed here.
    fn order(&self) -> Halt
        ensures { result ≡ Halt.Trace self.now.line Kind.Order }
    {
        Halt::Trace {
            line: self.line,
            kind: Kind::Order,
        }
    }

    // ---- events

    /// An event happens, with the user frame that it names, and what it shows is told.
    pub fn happen<K, R: TwinRecorder<K>>(
        &mut self,
        event: &TwinEvent,
        user: Option<&UserFrame>,
        recorder: &mut R,
        outlet: &mut K,
    ) -> Result<(), Halt>
        ensures { Happened R.Took R.Broke (option_copied user.entry) event.now
            (moment self.old outlet.old) (moment self.new outlet.new) result }
    {
        let told = match self.twin.step(event, user, &mut self.draws) {
            Ok(told) => told,
            Err(error) => return Err(self.halt_by(error)),
        };
        admit(
            &mut self.first.names,
            &mut self.second.names,
            &mut self.scis,
            event,
        )?;
        put_all_senders(
            &mut self.first.senders,
            &mut self.second.senders,
            told.as_slice(),
        )?;
        tell(
            &self.first.names,
            &self.second.names,
            told.as_slice(),
            recorder,
            outlet,
        )?;
        Ok(())
    }

    /// A station starts.
    fn start<K, R: TwinRecorder<K>>(
        &mut self,
        name: Name,
        sci: Sci,
        priority: u32,
        recorder: &mut R,
        outlet: &mut K,
    ) -> Result<(), Halt>
        ensures { priority ≤ 255
            → Did R.Took R.Broke (seq begin (happen (twins.Start name sci priority)))
            (moment self.old outlet.old) (moment self.new outlet.new) result }
    {
        let start = TwinEvent::Start {
            name,
            sci,
            priority: octet_of(priority as usize),
        };
        self.happen(&start, None, recorder, outlet)
    }

    /// A station adopts the second group.
    fn adopt<K, R: TwinRecorder<K>>(
        &mut self,
        station: u8,
        recorder: &mut R,
        outlet: &mut K,
    ) -> Result<(), Halt>
        ensures { Did R.Took R.Broke (happen (twins.Adopt station))
            (moment self.old outlet.old) (moment self.new outlet.new) result }
    {
        self.happen(&TwinEvent::Adopt { station }, None, recorder, outlet)
    }

    /// A station leaves a group.
    fn leave<K, R: TwinRecorder<K>>(
        &mut self,
        station: u8,
        group: GroupNumber,
        recorder: &mut R,
        outlet: &mut K,
    ) -> Result<(), Halt>
        ensures { Did R.Took R.Broke (happen (twins.Leave station group))
            (moment self.old outlet.old) (moment self.new outlet.new) result }
    {
        self.happen(&TwinEvent::Leave { station, group }, None, recorder, outlet)
    }

    /// A station begins a new life in each group in which it takes part.
    fn restart<K, R: TwinRecorder<K>>(
        &mut self,
        station: u8,
        recorder: &mut R,
        outlet: &mut K,
    ) -> Result<(), Halt>
        ensures { Did R.Took R.Broke (restart station)
            (moment self.old outlet.old) (moment self.new outlet.new) result }
    {
        if self.is_out(station) {
            return Ok(());
        }
        self.happen(&TwinEvent::Restart { station }, None, recorder, outlet)
    }

    /// Whether a station takes part in no group.
    pub fn is_out(&self, station: u8) -> bool
        ensures { (w : World) → StandsFor w self.now → result ≡ is_out station w.run }
    {
        !self.twin.takes_part(GroupNumber::First, station)
            && !self.twin.takes_part(GroupNumber::Second, station)
    }

    // ---- user data

    /// A station sends user data to an address.
    fn send_body<K, R: TwinRecorder<K>>(
        &mut self,
        station: u8,
        destination: Mac,
        body: &Octets,
        recorder: &mut R,
        outlet: &mut K,
    ) -> Result<(), Halt>
        ensures { Did R.Took R.Broke
            (send_new station (record { destination = destination; body = body.now }))
            (moment self.old outlet.old) (moment self.new outlet.new) result }
    {
        let user = UserFrame {
            destination,
            body: body.copied(self.alloc)?,
        };
        self.send(station, &user, recorder, outlet)
    }

    /// A station sends a user frame, unless it has no number left.
    fn send<K, R: TwinRecorder<K>>(
        &mut self,
        station: u8,
        user: &UserFrame,
        recorder: &mut R,
        outlet: &mut K,
    ) -> Result<(), Halt>
        ensures { Did R.Took R.Broke (send_new station user.now)
            (moment self.old outlet.old) (moment self.new outlet.new) result }
    {
        let number = self.next_user()?;
        let sending = TwinEvent::Send {
            station,
            user: number,
        };
        self.happen(&sending, Some(user), recorder, outlet)
    }

    /// The number of one more user frame, where one is left.
    fn next_user(&mut self) -> Result<u32, Halt>
        ensures number { IfOk result (λ number. (self.old.users < most_users)
            × (number ≡ self.old.users + 1) × (self.new ≡ record self.old { users = number })) }
        ensures over { IfErr result (λ halt. (most_users ≤ self.old.users)
            × (halt ≡ Halt.Limit Which.Frames)) }
    {
        if self.users >= MAX_USERS {
            return Err(Halt::Limit(Which::Frames));
        }
        self.users += 1;
        Ok(self.users)
    }

    // ---- names

    /// How many stations there are.
    pub fn station_count(&self) -> u8
        ensures { length self.now.first.names.items ≤ 255
            → result ≡ length self.now.first.names.items }
    {
        octet_of(self.first.names.len())
    }

    /// The place of the station of a name; where there is none, the count of stations.
    pub fn place(&self, name: &Name) -> u8
        ensures { length self.now.first.names.items ≤ 255
            → result ≡ position_or_len (pointwise nat_eq name.now) self.now.first.names.items }
    {
        octet_of(position(&self.first.names, name))
    }

    // ---- lines

    /// Performs a line that isn't refused.
    pub fn perform<K, R: TwinRecorder<K>>(
        &mut self,
        line: &RollLine,
        recorder: &mut R,
        outlet: &mut K,
    ) -> Result<(), Halt>
        requires form { IsInFormRoll line.now }
        requires later { is_later line.now ≡ true }
        ensures { ((w : World) → IsReached StandsFor w self.old → None ≡ refusal line.now w)
            → Did R.Took R.Broke (look (λ w. deed line.now w))
            (moment self.old outlet.old) (moment self.new outlet.new) result }
    {
        match line {
            RollLine::Plain(line) => self.perform_plain(line, recorder, outlet),
            RollLine::Group2 { cak, ckn } => self.take_second(cak, ckn),
            RollLine::Adopt { name } => self.adopt(self.place(name), recorder, outlet),
            RollLine::Leave { group, name } => self.leave(
                self.place(name),
                group_of(*group),
                recorder,
                outlet,
            ),
        }
    }

    /// Performs a line of one group that isn't refused.
    pub fn perform_plain<K, R: TwinRecorder<K>>(
        &mut self,
        line: &Line,
        recorder: &mut R,
        outlet: &mut K,
    ) -> Result<(), Halt>
        requires form { IsInForm line.now }
        requires later { is_elsewhere line.now ≡ false }
        ensures { Did R.Took R.Broke (look (λ w. deed_plain line.now w))
            (moment self.old outlet.old) (moment self.new outlet.new) result }
    {
        match line {
            Line::Station {
                name,
                sci,
                priority,
            } => self.start(*name, *sci, *priority, recorder, outlet),
            Line::Tick { rounds } => self.turns(Turn::Round, *rounds, recorder, outlet),
            Line::TickOne { name, ticks } => self.turns(
                Turn::Station(self.place(name)),
                *ticks,
                recorder,
                outlet,
            ),
            Line::Flow { rounds } => self.turns(Turn::FlowRound, *rounds, recorder, outlet),
            Line::Cut { from, to } => {
                self.cut(self.place(from), self.place(to))?;
                Ok(())
            }
            Line::Mend { from, to } => {
                self.mend(self.place(from), self.place(to));
                Ok(())
            }
            Line::Restart { name } => self.restart(self.place(name), recorder, outlet),
            Line::Send {
                name,
                destination,
                body,
            } => self.send_body(self.place(name), *destination, body, recorder, outlet),
            _ => Ok(()),
        }
    }

    /// A link is cut.
    fn cut(&mut self, from: u8, to: u8) -> Result<(), AllocError>
        ensures { OnOk result ((w : World) → StandsFor w self.old
            → StandsFor (record w { kept = cut_in from to w.kept }) self.new) }
    {
        self.cuts.cut(from, to)?;
        Ok(())
    }

    /// A link is mended.
    fn mend(&mut self, from: u8, to: u8)
        ensures { (w : World) → StandsFor w self.old
            → StandsFor (record w { kept = mended_in from to w.kept }) self.new }
    {
        self.cuts.mend(from, to);
    }
}

/// The group of a number, 1 or 2.
pub fn group_of(number: u32) -> GroupNumber
    ensures { result ≡ group_of number }
{
    if number == 1 {
        GroupNumber::First
    } else {
        GroupNumber::Second
    }
}

/// A number of at most 255, as a priority is, and a count or a place of stations.
fn octet_of(number: usize) -> u8
    ensures { number ≤ 255 → result ≡ number }
{
    u8::try_from(number).unwrap_or(u8::MAX)
}
