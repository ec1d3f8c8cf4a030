//! One of two groups: its stations and their packet numbers, and its draws among those of both.

ghost use Rattle.std.specs.Prelude.{◌≡◌, ◌↔◌, ◌+◌, ◌++◌, ◌∷◌, ℕ, List, [], length, replicate, is_some, Err, IfOk, OnOk};
ghost use Rattle.std.specs.Option.{option_copied};
ghost use Rattle.lan_base.specs.declared.frame.UserFrame.{UserFrame};
ghost use Rattle.mka_kdf.specs.declared.group.GroupFault.{GroupFault};
ghost use Rattle.mka_kdf.specs.Kdf.{HasWrongLength};
ghost use Rattle.lan_core.specs.declared.settings.Settings.{Settings};
ghost use Rattle.lan_core.specs.Run.{Run, happened};
ghost use Rattle.lan_core.specs.Lives.{drawn_mi, transmitting_at};
ghost use Rattle.lan_core.specs.Stops.{sak_of_tick};
ghost use Rattle.lan_core.specs.Standing.{AreDrawn};
ghost use Rattle.next_numbers.specs.Numbers.{TellNext, ShowsNext, shown_next};
ghost use Rattle.cak_roll.specs.Standing.{StandsIn};
ghost use Rattle.cak_roll.specs.inside.Noting.{repeating, given_before, draws_of, number_over, over, IsNoted};
ghost use Rattle.cak_roll.specs.inside.Parts.{events_of_part, IsReadyEvent, IsReadyPart};
ghost use Rattle.cak_roll.specs.inside.Sides.{Happens, Happen, MayStop};

use crate::event::GroupNumber;
use crate::noting::{draws_of, mi_in, note, repeating, sak_in};
use crate::part::Part;
use crate::told::TwinFacts;
use lan_base::{Draws, Suite, UserFrame};
use lan_core::{Drawn, Event, Fact, Facts, Lan, Settings, StepError, Stop};
use mka_kdf::GroupFault;
use next_numbers::Numbers;
use std::alloc::{AllocError, Global};
use std::marker::Model;

/// One of two groups.
#[derive(Drop)]
pub struct Side {
    alloc: Global,
    suite: Suite,
    lan: Lan,
    numbers: Numbers,
    /// For each draw of the group, the number over both of the first draw of what it gave.
    draws: Vec<u64>,
}

impl Model for Side {
    ghost use Rattle.cak_roll.specs.Standing.{Side};

    ghost Value = { Side };

    ghost view = { λ s. record {
      suite = s.suite;
      lan = s.lan;
      numbers = s.numbers;
      draws = s.draws.items;
    } };
}

impl Side {
    /// A group in which nothing happened.
    pub fn new(alloc: Global, settings: Settings) -> Result<Side, GroupFault>
        ensures stands { (users : List UserFrame) (whole : Run)
            → IfOk result (StandsIn settings users [] whole) }
        ensures length { (result ≡ Err GroupFault.CknLength) ↔ HasWrongLength settings.ckn }
    {
        let suite = settings.suite;
        let lan = Lan::new(alloc, settings)?;
        Ok(Side {
            alloc,
            suite,
            lan,
            numbers: Numbers::new(alloc),
            draws: Vec::new(alloc),
        })
    }

    /// The next packet number under the key that transmits at a station, 0 without one.
    pub fn next(&self, place: u8) -> u64
        ensures { (settings : Settings) (users : List UserFrame) (r both : Run)
            → StandsIn settings users r both self.now → result ≡ shown_next settings place r }
    {
        self.numbers.shown(&self.lan, place)
    }

    /// Whether a key transmits at a station.
    pub fn transmits(&self, place: u8) -> bool
        ensures { (settings : Settings) (users : List UserFrame) (r both : Run)
            → StandsIn settings users r both self.now
            → result ≡ is_some (transmitting_at settings place r) }
    {
        self.lan.transmitting(place).is_some()
    }

    /// A part of an event happens in the group, and what it shows is told. The next draw of both has this
    /// number.
    pub fn run<D: Draws>(
        &mut self,
        group: GroupNumber,
        part: &Part,
        user: Option<&UserFrame>,
        draws: &mut D,
        drawn: &mut Drawn,
        next: u64,
        told: &mut TwinFacts,
    ) -> Result<(), StepError>
        ensures { (settings : Settings) (users : List UserFrame) (r both : Run)
            → StandsIn settings users r both self.old → AreDrawn settings.suite both drawn.old
            → next ≡ drawn.old.count + 1
            → IsReadyPart settings users r (option_copied user.entry) part.now
            → Happen group settings users r both (events_of_part part.now) (D.nth draws.old)
            (D.nth draws.new) self.new drawn.new told.old told.new result }
    {
        match part {
            Part::Nothing => Ok(()),
            Part::One(event) => self.tell(group, event, user, draws, drawn, next, told),
            Part::Sent {
                station,
                user: number,
                pn,
            } => {
                let claim = Event::Claim {
                    station: *station,
                    user: *number,
                    pn: *pn,
                };
                self.tell(group, &claim, user, draws, drawn, next, told)?;
                self.tell(group, &Event::Emit, None, draws, drawn, next, told)
            }
        }
    }

    /// An event happens in the group, and what it shows is told.
    fn tell<D: Draws>(
        &mut self,
        group: GroupNumber,
        event: &Event,
        user: Option<&UserFrame>,
        draws: &mut D,
        drawn: &mut Drawn,
        next: u64,
        told: &mut TwinFacts,
    ) -> Result<(), StepError>
        ensures { (settings : Settings) (users : List UserFrame) (r both : Run)
            → StandsIn settings users r both self.old → AreDrawn settings.suite both drawn.old
            → next ≡ drawn.old.count + 1
            → IsReadyEvent settings users r (option_copied user.entry) event.now
            → Happen group settings users r both (event.now ∷ []) (D.nth draws.old)
            (D.nth draws.new) self.new drawn.new told.old told.new result }
    {
        let facts = self.happen(event, user, draws, drawn, next)?;
        told.push(group, facts)?;
        Ok(())
    }

    /// An event happens in the group. A draw that repeats one of either group stops it.
    fn happen<D: Draws>(
        &mut self,
        event: &Event,
        user: Option<&UserFrame>,
        draws: &mut D,
        drawn: &mut Drawn,
        next: u64,
    ) -> Result<Facts, StepError>
        ensures { (settings : Settings) (users : List UserFrame) (r both : Run)
            → StandsIn settings users r both self.old → AreDrawn settings.suite both drawn.old
            → next ≡ drawn.old.count + 1
            → IsReadyEvent settings users r (option_copied user.entry) event.now
            → Happens settings users r both event.now (D.nth draws.old) (D.nth draws.new)
            self.new drawn.new result }
    {
        match self.lan.step(event, user, draws) {
            Ok(facts) => {
                self.follow(event, facts.as_slice(), drawn, next)?;
                Ok(facts)
            }
            Err(error) => Err(self.over_both(error, next)),
        }
    }

    /// Why both groups go no further, where this one answered an error.
    fn over_both(&self, error: StepError, next: u64) -> StepError
        ensures { result ≡ over self.now.draws next error }
    {
        let StepError::Stopped(Stop::RepeatedDraw { first, .. }) = error else {
            return error;
        };
        StepError::Stopped(Stop::RepeatedDraw {
            first: self.number_of(first),
            second: next,
        })
    }

    /// The number over both of a draw of the group, 0 where there was none.
    fn number_of(&self, own: u64) -> u64
        ensures { result ≡ number_over self.now.draws own }
    {
        let place = own.saturating_sub(1) as usize;
        self.draws.get(place).copied().unwrap_or(0)
    }

    /// What an event drew is judged by the draws of both groups, and noted; packet numbers follow
    /// the event.
    fn follow(
        &mut self,
        event: &Event,
        facts: &[Fact],
        drawn: &mut Drawn,
        next: u64,
    ) -> Result<(), StepError>
        ensures judged { MayStop (repeating next (given_before drawn.old
            (drawn_mi facts.now) (sak_of_tick facts.now event.now))) result }
        ensures noted { OnOk result (IsNoted self.old.suite drawn.old drawn.new
            (drawn_mi facts.now) (sak_of_tick facts.now event.now)) }
        ensures counted { OnOk result (self.new ≡ record self.old {
          numbers = self.new.numbers;
          draws = self.old.draws ++ replicate (draws_of self.old.suite (drawn_mi facts.now)
              (sak_of_tick facts.now event.now)) next;
        }) }
        ensures numbers { (settings : Settings) (r : Run) → TellNext settings r self.old.numbers
            → ShowsNext settings r event.now
            → OnOk result (TellNext settings (happened event.now facts.now ∷ r) self.new.numbers) }
    {
        let mi = mi_in(facts);
        let sak = sak_in(event, facts);
        if let Some(stop) = repeating(drawn, next, mi, sak) {
            return Err(StepError::Stopped(stop));
        }
        count_on(&mut self.draws, draws_of(self.suite, mi, sak), next)?;
        note(drawn, self.suite, mi, sak)?;
        self.numbers.follow(self.alloc, event, facts)?;
        Ok(())
    }
}

/// So many draws more of both, from one of this number on.
fn count_on(draws: &mut Vec<u64>, more: u64, next: u64) -> Result<(), AllocError>
    ensures { OnOk result (draws.new.items ≡ draws.old.items ++ replicate more next) }
{
    for _ in 0..more {
        draws.push(next)?;
    }
    Ok(())
}
