//! The merged list.

ghost use Rattle.std.specs.Prelude.{◌≡◌, ◌++◌, ◌+◌, ◌<◌, ◌≤◌, ◌^◌, ℕ, List, Some, OnOk, IfOk, All};
ghost use Rattle.std.specs.Prelude.{length, map};
ghost use Rattle.std.specs.List.Sorted.{IsNonDecreasingBy};
ghost use Rattle.lan_base.specs.declared.association_number.AssociationNumber.{AssociationNumber};
ghost use Rattle.lan_base.specs.declared.frame.UserFrame.{UserFrame};
ghost use Rattle.lan_core.specs.declared.settings.Settings.{Settings};
ghost use Rattle.lan_core.specs.Run.{Run};
ghost use Rattle.lan_core.specs.Legal.{IsLegal, IsThrifty, unused};
ghost use Rattle.lan_core.specs.Parts.{followed_by};
ghost use Rattle.worker_races.specs.merge.Places.{Move, place};
ghost use Rattle.worker_races.specs.merge.Ranks.{is_sooner, in_order};
ghost use Rattle.worker_races.specs.merge.Merged.{merged, rank_at, entries_of};
ghost use Rattle.worker_races.specs.merge.Raced.{IsRaced};
ghost use Rattle.worker_races.specs.merge.Weaving.{IsWoven, part_of};
ghost use Rattle.worker_races.specs.merge.Steps.{attempt_of, moves_of, event_at, event_of_rank, IsRankOf};
ghost use Rattle.worker_races.specs.merge.Steps.{logs_of, claim_ranks, control_ranks, AreRising, AreSteps};
ghost use Rattle.worker_races.specs.merge.Steps.{counted_from};

use crate::merge::rank::Rank;
use crate::merge::step::{Step, copied, epoch_of, is_end};
use data_workers::{Entry, Log};
use lan_core::Event;
use std::alloc::{AllocError, Global};

/// The place of an entry that does not stand before `from`.
fn advance(steps: &[Step], entry: &Entry, from: usize) -> usize
    ensures { from ≤ place (attempt_of 0 entry.now) (moves_of steps.now)
        → result ≡ place (attempt_of 0 entry.now) (moves_of steps.now) }
{
    let mut at = from;
    while at < steps.len() {
        if is_end(entry, &steps[at]) {
            return at;
        }
        at += 1;
    }
    at
}

/// The rank of a claim at a place.
fn rank_of_claim(place: usize, entry: &Entry, log: usize) -> Rank
    ensures { result ≡ rank_at place (attempt_of log entry.now) }
{
    match entry {
        Entry::Taken(frame) => Rank {
            place,
            late: 0,
            station: frame.station,
            epoch: frame.epoch,
            refused: 0,
            number: frame.pn,
            log,
        },
        Entry::Refused { station, why } => Rank {
            place,
            late: 0,
            station: *station,
            epoch: epoch_of(*why),
            refused: 1,
            number: 0,
            log,
        },
    }
}

/// Appends the ranks of a log's entries. Each is looked for from the place of the one before it on.
fn append_log(
    steps: &[Step],
    log: &[Entry],
    number: usize,
    ranks: &mut Vec<Rank>,
) -> Result<(), AllocError>
    ensures { IsNonDecreasingBy (λ e. place (attempt_of 0 e) (moves_of steps.now)) log.now
        → OnOk result (ranks.new.items
        ≡ ranks.old.items ++ claim_ranks (moves_of steps.now) number log.now) }
{
    let mut at = 0;
    for entry in log {
        at = advance(steps, entry, at);
        ranks.push(rank_of_claim(at, entry, number))?;
    }
    Ok(())
}

/// Appends the ranks of the steps.
fn append_control(steps: &[Step], ranks: &mut Vec<Rank>) -> Result<(), AllocError>
    ensures { OnOk result (ranks.new.items ≡ ranks.old.items ++ control_ranks 0 steps.now) }
{
    for place in 0..steps.len() {
        ranks.push(Rank {
            place,
            late: 1,
            station: 0,
            epoch: 0,
            refused: 0,
            number: 0,
            log: 0,
        })?;
    }
    Ok(())
}

/// Sorts ranks.
fn sort(ranks: &mut Vec<Rank>) -> Result<(), AllocError>
    ensures { OnOk result (ranks.new.items ≡ in_order is_sooner ranks.old.items) }
{
    ranks.sort_by_key(|rank| *rank)?;
    Ok(())
}

/// The number of a log's user frame, from 1.
fn user_number(log: usize) -> u32
    ensures { log + 1 < 2 ^ 32 → result ≡ log + 1 }
{
    u32::try_from(log.saturating_add(1)).unwrap_or(u32::MAX)
}

/// The event of a rank.
fn event_of(alloc: Global, steps: &[Step], rank: &Rank) -> Result<Event, AllocError>
    ensures { IsRankOf steps.now rank.now
        → IfOk result (λ e. Some e ≡ event_of_rank steps.now rank.now) }
{
    if rank.late == 1 && rank.place < steps.len() {
        copied(alloc, &steps[rank.place].event)
    } else {
        Ok(Event::Claim {
            station: rank.station,
            user: user_number(rank.log),
            pn: rank.number,
        })
    }
}

/// The events of ranks.
fn events_of(alloc: Global, steps: &[Step], ranks: &[Rank]) -> Result<Vec<Event>, AllocError>
    ensures { All (IsRankOf steps.now) ranks.now
        → IfOk result (λ v. map Some v.items ≡ map (event_of_rank steps.now) ranks.now) }
{
    let mut events = Vec::new(alloc);
    for rank in ranks {
        events.push(event_of(alloc, steps, rank)?)?;
    }
    Ok(events)
}

/// The events of a race in one list: those of control in their order, and a claim for each entry of
/// the logs, at its place. The claim's user frame is the number of its log, from 1.
pub fn merge(alloc: Global, control: &[Step], logs: &[Log]) -> Result<Vec<Event>, AllocError>
    // Where along each log no entry stands before the one before it, as is so of a race.
    ensures exact { length logs.now + 1 < 2 ^ 32 → AreRising (moves_of control.now) logs.now
        → IfOk result (λ v. map Some v.items ≡ map (event_at control.now)
        (merged (moves_of control.now) (entries_of (logs_of 0 logs.now)))) }
    // Of a race after a run: they are those of what happens by the merged list, a part that is woven
    // of control and the logs, and with which the run is legal, and thrifty where it was so and few
    // numbers are unused at the end.
    ensures legal { (settings : Settings) (users : List UserFrame) (base : ℕ)
        (ans : ℕ → ℕ → AssociationNumber) (pointed : ℕ → ℕ) (r : Run) (moves : List Move)
        → length logs.now + 1 < 2 ^ 32 → AreSteps control.now moves
        → IsRaced settings users base ans pointed r moves (logs_of 0 logs.now)
        → IfOk result (λ v.
        let part = part_of settings base (merged moves (entries_of (logs_of 0 logs.now))) r in
        (map (λ h. h.event) part ≡ map (counted_from base) v.items)
        × IsWoven base part (map (λ m. m.x) moves) (logs_of 0 logs.now)
        × IsLegal settings users (followed_by part r)
        × (IsThrifty settings r
        → ((s epoch : ℕ) → unused settings s epoch (followed_by part r) ≤ 16)
        → IsThrifty settings (followed_by part r))) }
{
    let mut ranks = Vec::new(alloc);
    append_control(control, &mut ranks)?;
    for number in 0..logs.len() {
        append_log(control, logs[number].as_slice(), number, &mut ranks)?;
    }
    sort(&mut ranks)?;
    events_of(alloc, control, ranks.as_slice())
}
