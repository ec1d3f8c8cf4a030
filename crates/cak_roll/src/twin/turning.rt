//! How an event happens in both groups.

ghost use Rattle.std.specs.Prelude.{◌≡◌, ◌↔◌, ◌⊎◌, ◌<◌, ◌+◌, ℕ, List, [], None, Err, true, false, is_some, IsTrue, IfOk, IfErr, OnOk};
ghost use Rattle.std.specs.Option.{option_copied};
ghost use Rattle.lan_base.specs.declared.frame.UserFrame.{UserFrame};
ghost use Rattle.lan_core.specs.declared.stop.Stop.TheVariants.{DrawsSpent};
ghost use Rattle.lan_core.specs.declared.stop.StepError.TheVariants.{Memory, Stopped};
ghost use Rattle.lan_core.specs.declared.settings.Settings.{Settings};
ghost use Rattle.lan_core.specs.Run.{Run};
ghost use Rattle.lan_core.specs.Stops.{is_spent};
ghost use Rattle.lan_core.specs.Standing.{AreDrawn};
ghost use Rattle.lan_core.specs.Unstopped.{AreDraws};
ghost use Rattle.cak_roll.specs.declared.fault.TwinError.TheVariants.{NoSecond};
ghost use Rattle.cak_roll.specs.declared.event.GroupNumber.TheVariants.{First, Second};
ghost use Rattle.cak_roll.specs.declared.event.TwinEvent.{TwinEvent};
ghost use Rattle.cak_roll.specs.Twin.{Pair, Twin as TwinRun, run_of, merged, events_in};
ghost use Rattle.cak_roll.specs.Standing.{StandsIn, IfThere, StandsFor, StandBoth};
ghost use Rattle.cak_roll.specs.Answers.{is_early, MayHappen, AnswersTwin};
ghost use Rattle.cak_roll.specs.inside.Parts.{events_of_part, IsReadyPart};
ghost use Rattle.cak_roll.specs.inside.Sides.{Happen};
ghost use Rattle.cak_roll.specs.inside.Turns.{HappenThere, Turns, BothPerform};

use super::Twin;
use crate::event::{GroupNumber, TwinEvent, law_fields_are_typed};
use crate::fault::TwinError;
use crate::part::Part;
use crate::side::Side;
use crate::told::TwinFacts;
use lan_base::{Blocks, Draws, ListDraws, UserFrame};
use lan_core::{StepError, Stop};
use std::alloc::Global;

impl Twin {
    /// An event happens to a twin that is not stopped.
    pub(super) fn perform<D: Draws>(
        &mut self,
        event: &TwinEvent,
        user: Option<&UserFrame>,
        draws: &mut D,
    ) -> Result<TwinFacts, TwinError>
        ensures answers { (pair : Pair) (users : List UserFrame) (t : TwinRun)
            → StandsFor pair users self.old t
            → MayHappen users t (option_copied user.entry) event.now (D.nth draws.old)
            → AnswersTwin pair users t event.now (D.nth draws.old) (D.nth draws.new) self.new result }
        ensures early { (result ≡ Err NoSecond) ↔ (is_early self.old event.now ≡ true) }
        ensures there { OnOk result (is_some self.new.second ≡ is_some self.old.second) }
    {
        if self.is_early(event) {
            return Err(TwinError::NoSecond);
        }
        law_fields_are_typed(event);
        let first = self.part(GroupNumber::First, event);
        let second = self.part(GroupNumber::Second, event);
        let told = self.perform_parts(&first, &second, user, draws)?;
        self.members.follow(event)?;
        Ok(told)
    }

    /// Whether a station adopts a second group that isn't there.
    fn is_early(&self, event: &TwinEvent) -> bool
        ensures { result ≡ is_early self.now event.now }
    {
        match event {
            TwinEvent::Adopt { .. } => self.second.is_none(),
            _ => false,
        }
    }

    /// The parts of an event happen. Where both draw, the draws of both come first.
    fn perform_parts<D: Draws>(
        &mut self,
        first: &Part,
        second: &Part,
        user: Option<&UserFrame>,
        draws: &mut D,
    ) -> Result<TwinFacts, StepError>
        ensures turns { (pair : Pair) (users : List UserFrame) (t : TwinRun) (event : TwinEvent)
            → StandBoth pair users (run_of First t) (run_of Second t) (merged t) self.old
            → pair.second.suite ≡ pair.first.suite
            → events_of_part first.now ≡ events_in pair First t event
            → events_of_part second.now ≡ events_in pair Second t event
            → IsReadyPart pair.first users (run_of First t) (option_copied user.entry) first.now
            → IsReadyPart pair.second users (run_of Second t) (option_copied user.entry) second.now
            → (self.old.second ≡ None → events_of_part second.now ≡ [])
            → AreDraws (D.nth draws.old)
            → BothPerform pair users t event (D.nth draws.old) (D.nth draws.new) self.new result }
        ensures same { OnOk result ((self.new.settings ≡ self.old.settings)
            × (self.new.stopped ≡ self.old.stopped) × (self.new.members ≡ self.old.members)) }
        ensures there { OnOk result (is_some self.new.second ≡ is_some self.old.second) }
    {
        if is_alone(first, second) {
            return self.turn(first, second, user, draws);
        }
        let mut taken = two_of(self.alloc, draws)?;
        self.turn(first, second, user, &mut taken)
    }

    /// The part of an event in the first group happens, and then that in the second.
    fn turn<D: Draws>(
        &mut self,
        first: &Part,
        second: &Part,
        user: Option<&UserFrame>,
        draws: &mut D,
    ) -> Result<TwinFacts, StepError>
        ensures turns { (pair : Pair) (users : List UserFrame) (t : TwinRun) (event : TwinEvent)
            → StandBoth pair users (run_of First t) (run_of Second t) (merged t) self.old
            → pair.second.suite ≡ pair.first.suite
            → events_of_part first.now ≡ events_in pair First t event
            → events_of_part second.now ≡ events_in pair Second t event
            → IsReadyPart pair.first users (run_of First t) (option_copied user.entry) first.now
            → IsReadyPart pair.second users (run_of Second t) (option_copied user.entry) second.now
            → (self.old.second ≡ None → events_of_part second.now ≡ [])
            → Turns pair users t event (D.nth draws.old) (D.nth draws.new) self.new result }
        ensures same { OnOk result ((self.new.settings ≡ self.old.settings)
            × (self.new.stopped ≡ self.old.stopped) × (self.new.members ≡ self.old.members)) }
        ensures there { OnOk result (is_some self.new.second ≡ is_some self.old.second) }
    {
        let mut told = TwinFacts::new(self.alloc);
        let next = self.drawn.next_number();
        self.run_first(first, user, draws, next, &mut told)?;
        let later = self.drawn.next_number();
        self.run_second(second, user, draws, later, &mut told)?;
        Ok(told)
    }

    /// A part of an event happens in the first group. The next draw of both has this number.
    fn run_first<D: Draws>(
        &mut self,
        part: &Part,
        user: Option<&UserFrame>,
        draws: &mut D,
        next: u64,
        told: &mut TwinFacts,
    ) -> Result<(), StepError>
        ensures happens { (settings : Settings) (users : List UserFrame) (r both : Run)
            → StandsIn settings users r both self.old.first
            → AreDrawn settings.suite both self.old.drawn
            → next ≡ self.old.drawn.count + 1
            → IsReadyPart settings users r (option_copied user.entry) part.now
            → Happen First settings users r both (events_of_part part.now) (D.nth draws.old)
            (D.nth draws.new) self.new.first self.new.drawn told.old told.new result }
        ensures same { self.new ≡ record self.old {
          first = self.new.first;
          drawn = self.new.drawn;
        } }
    {
        self.first.run(
            GroupNumber::First,
            part,
            user,
            draws,
            &mut self.drawn,
            next,
            told,
        )
    }

    /// A part of an event happens in the second group, if it is there. The next draw of both has this
    /// number.
    fn run_second<D: Draws>(
        &mut self,
        part: &Part,
        user: Option<&UserFrame>,
        draws: &mut D,
        next: u64,
        told: &mut TwinFacts,
    ) -> Result<(), StepError>
        ensures happens { (settings : Settings) (users : List UserFrame) (r both : Run)
            → IfThere settings users r both self.old.second
            → AreDrawn settings.suite both self.old.drawn
            → next ≡ self.old.drawn.count + 1
            → IsReadyPart settings users r (option_copied user.entry) part.now
            → (self.old.second ≡ None → events_of_part part.now ≡ [])
            → HappenThere settings users r both (events_of_part part.now) (D.nth draws.old)
            (D.nth draws.new) self.new.second self.new.drawn told.old told.new result }
        ensures same { self.new ≡ record self.old {
          second = self.new.second;
          drawn = self.new.drawn;
        } }
        ensures there { is_some self.new.second ≡ is_some self.old.second }
    {
        match &mut self.second {
            Some(side) => side.run(
                GroupNumber::Second,
                part,
                user,
                draws,
                &mut self.drawn,
                next,
                told,
            ),
            None => Ok(()),
        }
    }
}

/// Whether there is no event in one group or the other.
fn is_alone(first: &Part, second: &Part) -> bool
    ensures { IsTrue result
        ↔ ((events_of_part first.now ≡ []) ⊎ (events_of_part second.now ≡ [])) }
{
    first.is_nothing() || second.is_nothing()
}

/// A supply of the next two draws of another.
fn two_of<D: Draws>(alloc: Global, draws: &mut D) -> Result<ListDraws, StepError>
    ensures next { IfOk result (λ two. (k : ℕ) → k < 2
        → ⟦<ListDraws as Draws>⟧.nth two k ≡ D.nth draws.old k) }
    ensures taken { OnOk result ((k : ℕ) → D.nth draws.new k ≡ D.nth draws.old (k + 2)) }
    ensures enough { OnOk result (is_spent 2 (D.nth draws.old) ≡ false) }
    ensures spent { IfErr result (λ error. (error ≡ Memory)
        ⊎ ((error ≡ Stopped DrawsSpent) × (is_spent 2 (D.nth draws.old) ≡ true))) }
{
    let mut values = Blocks::new(alloc);
    values.push(draws.draw().ok_or(Stop::DrawsSpent)?)?;
    values.push(draws.draw().ok_or(Stop::DrawsSpent)?)?;
    Ok(ListDraws::of(values))
}
