//! A step of control, and whether an entry of a log stands before it.

ghost use Rattle.std.specs.Prelude.{◌≡◌, ◌==◌, ℕ, true, false, IfOk};
ghost use Rattle.lan_base.specs.declared.association_number.AssociationNumber.{AssociationNumber};
ghost use Rattle.data_workers.specs.Entries.{epoch_in};
ghost use Rattle.worker_races.specs.merge.Places.{ends};
ghost use Rattle.worker_races.specs.merge.Raced.{shown_of};
ghost use Rattle.worker_races.specs.merge.Steps.{attempt_of, move_of, station_of};

use data_workers::Entry;
use lan_core::Event;
use packet_claims::NoClaim;
use std::alloc::{AllocError, Global};

/// An event of control, with the epochs of the keys that transmit at its station before and after
/// it, which are at least 1.
#[derive(Drop)]
pub struct Step {
    pub event: Event,
    pub before: Option<u32>,
    pub after: Option<u32>,
}

impl Step {
    /// An event of control, with those epochs.
    pub fn of(
        alloc: Global,
        event: &Event,
        before: Option<u32>,
        after: Option<u32>,
    ) -> Result<Step, AllocError>
        ensures { IfOk result (λ step. step
            ≡ record { event = event.now; before = before; after = after }) }
    {
        let event = copied(alloc, event)?;
        Ok(Step {
            event,
            before,
            after,
        })
    }
}

/// A copy of an event.
pub(crate) fn copied(alloc: Global, event: &Event) -> Result<Event, AllocError>
    ensures { IfOk result (λ e. e ≡ event.now) }
{
    Ok(match event {
        Event::Start {
            name,
            sci,
            priority,
        } => Event::Start {
            name: *name,
            sci: *sci,
            priority: *priority,
        },
        Event::Tick { station, next } => Event::Tick {
            station: *station,
            next: *next,
        },
        Event::Deliver { frame, station } => Event::Deliver {
            frame: *frame,
            station: *station,
        },
        Event::Restart { station } => Event::Restart { station: *station },
        Event::Claim { station, user, pn } => Event::Claim {
            station: *station,
            user: *user,
            pn: *pn,
        },
        Event::Emit => Event::Emit,
        Event::Inject { station, octets } => Event::Inject {
            station: *station,
            octets: octets.copied(alloc)?,
        },
    })
}

/// Whether an event is one of the station, and no claim.
fn is_of(event: &Event, station: u8) -> bool
    ensures { result ≡ (station_of event.now == station) }
{
    match event {
        Event::Tick { station: own, .. }
        | Event::Deliver { station: own, .. }
        | Event::Restart { station: own }
        | Event::Inject { station: own, .. } => *own == station,
        Event::Start { .. } | Event::Claim { .. } | Event::Emit => false,
    }
}

/// The packet number that an event shows.
fn shown(event: &Event) -> u64
    ensures { result ≡ shown_of event.now }
{
    match event {
        Event::Tick { next, .. } => *next,
        _ => 0,
    }
}

/// The epoch of a refusal.
pub(crate) fn epoch_of(why: NoClaim) -> u32
    ensures { result ≡ epoch_in why }
{
    match why {
        NoClaim::NoKey { after } => after,
        NoClaim::Exhausted { epoch } => epoch,
    }
}

/// Whether an entry stands before this step, if not before an earlier one.
pub(crate) fn is_end(entry: &Entry, step: &Step) -> bool
    ensures { result ≡ ends (attempt_of 0 entry.now) (move_of step.now) }
{
    match entry {
        Entry::Taken(frame) => ends_claim(step, frame.station, frame.epoch, frame.pn),
        Entry::Refused { station, why } => ends_refusal(step, *station, epoch_of(*why)),
    }
}

/// Whether a claim stands before this step: its key transmits before it, and the step ends that, or
/// shows a greater number.
#[tactic(auto, unfolding(crate::specs::merge::Places::ends))]
fn ends_claim(step: &Step, station: u8, epoch: u32, pn: u32) -> bool
    ensures { (an : AssociationNumber) (log : ℕ) → result ≡ ends (record {
      station = station;
      an = an;
      epoch = epoch;
      refused = false;
      number = pn;
      log = log;
    }) (move_of step.now) }
{
    let before = step.before.unwrap_or(0);
    let after = step.after.unwrap_or(0);
    let shows = u64::from(pn) < shown(&step.event);
    is_of(&step.event, station) && before == epoch && (shows || after != epoch)
}

/// Whether a refusal stands before this step: a later epoch transmits after it.
#[tactic(auto, unfolding(crate::specs::merge::Places::ends))]
fn ends_refusal(step: &Step, station: u8, epoch: u32) -> bool
    ensures { (an : AssociationNumber) (number log : ℕ) → result ≡ ends (record {
      station = station;
      an = an;
      epoch = epoch;
      refused = true;
      number = number;
      log = log;
    }) (move_of step.now) }
{
    is_of(&step.event, station) && epoch < step.after.unwrap_or(0)
}
