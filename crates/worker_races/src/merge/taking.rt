//! The frames of a race, in the order of its events.

ghost use Rattle.std.specs.Prelude.{◌≡◌, ◌++◌, IfOk, OnOk, option_to_list};
ghost use Rattle.worker_races.specs.merge.Taking.{first_of, rest_of, next_entry, without_next};
ghost use Rattle.worker_races.specs.merge.Taking.{frames_of, left_by, taken_by};

use data_workers::{Entry, Log};
use lan_base::Protected;
use lan_core::Event;
use std::alloc::{AllocError, Global};
use std::collections::VecDeque;
use std::marker::Model;

/// The entries of a log that no claim has taken yet. Contracts see them as a list.
#[derive(Drop)]
pub(crate) struct Rest {
    entries: VecDeque<Entry>,
}

impl Model for Rest {
    ghost use Rattle.std.specs.Prelude.{List};
    ghost use Rattle.data_workers.specs.declared.entry.Entry.{Entry};

    ghost Value = { List Entry };

    ghost view = { λ r. r.entries.items };
}

impl Rest {
    /// All entries of a log.
    fn of(log: Log) -> Rest
        ensures { result ≡ log }
    {
        Rest {
            entries: VecDeque::from(log.into_entries()),
        }
    }

    /// Takes the next entry, if there is one.
    fn next(&mut self) -> Option<Entry>
        ensures { (result ≡ first_of self.old) × (self.new ≡ rest_of self.old) }
    {
        self.entries.pop_front()
    }
}

/// All entries of logs.
fn rests_of(alloc: Global, mut logs: Vec<Log>) -> Result<Vec<Rest>, AllocError>
    ensures { IfOk result (λ rests. rests.items ≡ logs.items) }
{
    let mut rests = VecDeque::new(alloc);
    while let Some(log) = logs.pop() {
        rests.push_front(Rest::of(log))?;
    }
    Ok(Vec::from(rests))
}

/// Takes the next entry of the log at a place, if there is one.
#[tactic(auto, using(crate::proofs::weaving::FramesTaken::next_steps))]
fn take_next(rests: &mut Vec<Rest>, place: usize) -> Option<Entry>
    ensures { (result ≡ next_entry place rests.old.items)
        × (rests.new.items ≡ without_next place rests.old.items) }
{
    if place < rests.len() {
        rests[place].next()
    } else {
        None
    }
}

/// What an event takes: a claim the next entry of the log of its user frame.
fn take(event: &Event, rests: &mut Vec<Rest>) -> Option<Protected>
    ensures { (option_to_list result ≡ taken_by event.now rests.old.items)
        × (rests.new.items ≡ left_by event.now rests.old.items) }
{
    let Event::Claim { user, .. } = event else {
        return None;
    };
    match take_next(rests, user.saturating_sub(1) as usize) {
        Some(Entry::Taken(frame)) => Some(frame),
        Some(Entry::Refused { .. }) | None => None,
    }
}

/// Appends a frame, if there is one.
fn put(frames: &mut Vec<Protected>, frame: Option<Protected>) -> Result<(), AllocError>
    ensures { OnOk result (frames.new.items ≡ frames.old.items ++ option_to_list frame) }
{
    if let Some(frame) = frame {
        frames.push(frame)?;
    }
    Ok(())
}

/// The frames of the claims that got a number, in the order of the events: each claim for the user
/// frame of a log, from 1, takes the next entry of that log.
pub fn taken_frames(
    alloc: Global,
    events: &[Event],
    logs: Vec<Log>,
) -> Result<Vec<Protected>, AllocError>
    ensures { IfOk result (λ frames. frames.items ≡ frames_of events.now logs.items) }
{
    let mut rests = rests_of(alloc, logs)?;
    let mut frames = Vec::new(alloc);
    for event in events {
        let frame = take(event, &mut rests);
        put(&mut frames, frame)?;
    }
    Ok(frames)
}
