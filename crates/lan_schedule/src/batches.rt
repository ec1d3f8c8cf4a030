//! Frames next to each other reach a station: of those that are protected ones a batch is checked
//! side by side, and then they are admitted one after the other.

ghost use Rattle.std.specs.Prelude.{◌≡◌, ◌≤◌, ◌↔◌, List, [], IfOk, OnOk, IfSome, IsTrue, length, map};
ghost use Rattle.std.specs.Prelude.{All};
ghost use Rattle.lan_base.specs.Ranges.{most_frames, most_frame_octets};
ghost use Rattle.lan_base.specs.declared.frame.UserFrame.{UserFrame};
ghost use Rattle.lan_core.specs.declared.event.Event.TheVariants as events;
ghost use Rattle.lan_core.specs.declared.settings.Settings.{Settings};
ghost use Rattle.lan_core.specs.Run.{Run};
ghost use Rattle.lan_core.specs.Standing.{StandsFor as GroupStandsFor};
ghost use Rattle.lan_core.specs.Batches.{IsChecked};
ghost use Rattle.lan_schedule.specs.Acts.{happen};
ghost use Rattle.lan_schedule.specs.Lines.{feed};
ghost use Rattle.lan_schedule.specs.Ends.{moment};
ghost use Rattle.lan_schedule.specs.inside.Batching.{IsData, AreData, AreChecked};
ghost use Rattle.lan_schedule.specs.inside.Batching.{first_answer, rest_answers};
ghost use Rattle.lan_schedule.specs.inside.Staged.{Did, DidWhere};

use crate::recorder::Recorder;
use crate::stage::Stage;
use gcm_frames::is_sec;
use lan_base::{FRAME_MAX, law_ranges};
use lan_core::law_what_was_checked_stays_checked;
use packet_claims::Gate;
use rx_slots::Checked;
use rx_workers::{check_batch, is_worth_threads};
use std::alloc::{AllocError, Global};
use std::collections::VecDeque;
use std::marker::Model;
use std::thread::Threads;
use trace_acts::Halt;

/// How many frames a batch has at most.
const MOST: u32 = 4_096;

/// What a station answered to frames that did not reach it yet, the next one first. Contracts see
/// the list.
#[derive(Drop)]
struct Ahead {
    answers: VecDeque<Checked>,
}

impl Model for Ahead {
    ghost use Rattle.std.specs.Prelude.{List};
    ghost use Rattle.rx_slots.specs.declared.arrival.Checked.{Checked};

    ghost Value = { List Checked };

    ghost view = { λ a. a.answers.items };
}

impl Ahead {
    /// No answer.
    fn new(alloc: Global) -> Self
        ensures { result ≡ [] }
    {
        Ahead {
            answers: VecDeque::new(alloc),
        }
    }

    /// These answers.
    fn of(answers: Vec<Checked>) -> Self
        ensures { result ≡ answers.items }
    {
        Ahead {
            answers: VecDeque::from(answers),
        }
    }

    /// Whether no answer is left.
    fn is_empty(&self) -> bool
        ensures { IsTrue result ↔ (self.now ≡ []) }
    {
        self.answers.is_empty()
    }

    /// Takes out the next answer, if there is one.
    fn next(&mut self) -> Option<Checked>
        ensures { (result ≡ first_answer self.old) × (self.new ≡ rest_answers self.old) }
    {
        self.answers.pop_front()
    }
}

impl Stage {
    /// The frames from one number to another reach a station, in their order, checked in batches where
    /// threads are worth it.
    pub fn feed_in_batches<T: Threads + Sync, K, R: Recorder<K>, G: Gate>(
        &mut self,
        rt: &T,
        first: u32,
        last: u32,
        station: u8,
        recorder: &mut R,
        outlet: &mut K,
        gate: &G,
    ) -> Result<(), Halt>
        requires order { first ≤ last }
        requires few { last ≤ most_frames }
        ensures { Did R.Took R.Broke (feed first last station)
            (moment self.old outlet.old) (moment self.new outlet.new) result }
    {
        if !is_worth_threads(rt, last + 1 - first) {
            return self.feed(first, last, station, recorder, outlet, gate);
        }
        law_what_was_checked_stays_checked();
        let mut ahead = Ahead::new(self.alloc);
        for behind in 0..last + 1 - first {
            let number = first + behind;
            self.look_ahead(rt, number, last, station, &mut ahead)?;
            let checked = ahead.next();
            self.arrive(number, station, checked, recorder, outlet, gate)?;
        }
        Ok(())
    }

    /// A frame reaches a station, which may have checked it.
    fn arrive<K, R: Recorder<K>, G: Gate>(
        &mut self,
        number: u32,
        station: u8,
        checked: Option<Checked>,
        recorder: &mut R,
        outlet: &mut K,
        gate: &G,
    ) -> Result<(), Halt>
        ensures { DidWhere (λ w. IfSome checked (IsChecked w.run number station)) R.Took R.Broke
            (happen (events.Deliver number station))
            (moment self.old outlet.old) (moment self.new outlet.new) result }
    {
        match checked {
            Some(checked) => self.admit(number, station, checked, recorder, outlet, gate),
            None => self.deliver(number, station, recorder, outlet, gate),
        }
    }

    /// Where no answer is left and a protected frame comes, the next batch is checked.
    fn look_ahead<T: Threads + Sync>(
        &self,
        rt: &T,
        number: u32,
        last: u32,
        station: u8,
        ahead: &mut Ahead,
    ) -> Result<(), AllocError>
        requires order { number ≤ last }
        requires few { last ≤ most_frames }
        ensures { (settings : Settings) (users : List UserFrame) (r : Run)
            → GroupStandsFor settings users self.now.lan r → AreChecked r number station ahead.old
            → OnOk result (AreChecked r number station ahead.new) }
    {
        if ahead.is_empty() && self.protected(number).is_some() {
            *ahead = self.checked(rt, number, last, station)?;
        }
        Ok(())
    }

    /// What a station answers to the protected frames from one number on, before another kind of
    /// frame comes.
    fn checked<T: Threads + Sync>(
        &self,
        rt: &T,
        first: u32,
        last: u32,
        station: u8,
    ) -> Result<Ahead, AllocError>
        requires order { first ≤ last }
        requires few { last ≤ most_frames }
        ensures { (settings : Settings) (users : List UserFrame) (r : Run)
            → GroupStandsFor settings users self.now.lan r
            → IfOk result (AreChecked r first station) }
    {
        let Some(slots) = self.lan.slots(station) else {
            return Ok(Ahead::new(self.alloc));
        };
        let frames = self.batch(first, last)?;
        let batch = check_batch(rt, self.alloc, slots, &frames)?;
        Ok(Ahead::of(batch.into_answers()))
    }

    /// The octets of the protected frames from one number on, before another kind of frame comes.
    fn batch(&self, first: u32, last: u32) -> Result<Vec<&[u8]>, AllocError>
        requires order { first ≤ last }
        requires few { last ≤ most_frames }
        ensures short { IfOk result
            (λ frames. All (λ frame. length frame.now ≤ most_frame_octets) frames.items) }
        ensures frames { (settings : Settings) (users : List UserFrame) (r : Run)
            → GroupStandsFor settings users self.now.lan r
            → IfOk result (λ frames. AreData r first (map (λ frame. frame.now) frames.items)) }
    {
        let mut frames = Vec::new(self.alloc);
        for behind in 0..MOST.min(last + 1 - first) {
            let Some(octets) = self.protected(first + behind) else {
                return Ok(frames);
            };
            frames.push(octets)?;
        }
        Ok(frames)
    }

    /// The octets of the frame of a number, if that is a protected one.
    fn protected(&self, number: u32) -> Option<&[u8]>
        ensures short { IfSome result (λ octets. length octets.now ≤ most_frame_octets) }
        ensures frames { (settings : Settings) (users : List UserFrame) (r : Run)
            → GroupStandsFor settings users self.now.lan r
            → IfSome result (λ octets. IsData r number octets.now) }
    {
        law_ranges();
        let octets = self.lan.frame(number)?;
        if !is_sec(octets) || octets.len() > FRAME_MAX {
            return None;
        }
        Some(octets)
    }
}
