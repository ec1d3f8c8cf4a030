//! Whether a fresh frame comes early or late to a member beside it.

ghost use Rattle.std.specs.Prelude.{◌≡◌};
ghost use Rattle.std.specs.List.{list_any};
ghost use Rattle.std.specs.Prelude.{is_some, if◌then◌else◌};
ghost use Rattle.std.specs.Map.{lookup};
ghost use Rattle.std.specs.BTreeMap.{is_at};
ghost use Rattle.rollover_notes.specs.Givings.{given_before, given_later};
ghost use Rattle.rollover_notes.specs.Standing.{member_key_cmp};
ghost use Rattle.rollover_notes.specs.Timings.{is_late, is_retired, overdue, timing_by, unready};
ghost use Rattle.rollover_notes.specs.inside.Walking.{timing_in};

use crate::givings::Givings;
use crate::reports::Reports;
use crate::saying::Member;
use lan_base::{RETIRE_TIME, TICK_NANOS};
use use_notes::RightFrame;

/// SAK Retire Time, in nanoseconds.
const RETIRE_NANOS: u64 = RETIRE_TIME as u64 * TICK_NANOS;

/// What a fresh frame is to a member beside it.
#[derive(Clone, Copy, Debug, PartialEq, Eq)]
pub enum Timing {
    /// The member had not reported its key, but one that was first given before it.
    Early,
    /// The member had not reported its key, nor one that was first given before it.
    Joining,
    /// The member had reported its key, and begun one that was first given later more than SAK Retire
    /// Time before.
    Late,
    /// None of these.
    InTime,
}

impl Timing {
    /// Whether the frame comes late.
    pub fn is_late(&self) -> bool
        ensures { result ≡ is_late self.now }
    {
        matches!(self, Timing::Late)
    }

    /// What a frame is to a member, by what is kept.
    pub(crate) fn of(
        givings: &Givings,
        reports: &Reports,
        member: Member,
        frame: &RightFrame,
    ) -> Timing
        ensures { result ≡ timing_in givings.now reports.now frame.now member }
    {
        if reports.has(member, frame.key) {
            return overdue(has_left(givings, reports, member, frame));
        }
        unready(
            givings.has(member.0, frame.key),
            has_earlier(givings, reports, member, frame.key),
        )
    }
}

/// Of a frame under a key that the member had not reported.
fn unready(is_given: bool, is_early: bool) -> Timing
    ensures { result ≡ unready is_given is_early }
{
    if !is_given {
        Timing::InTime
    } else if is_early {
        Timing::Early
    } else {
        Timing::Joining
    }
}

/// Of a frame under a key that the member had reported.
fn overdue(has_left: bool) -> Timing
    ensures { result ≡ overdue has_left }
{
    if has_left {
        Timing::Late
    } else {
        Timing::InTime
    }
}

/// Whether a member had reported a key that was first given before another one.
fn has_earlier(givings: &Givings, reports: &Reports, member: Member, key: u32) -> bool
    ensures { result ≡ list_any (λ k. is_some (lookup (is_at (member_key_cmp (member, k))) reports.now.packets.entries))
        (given_before key givings.now.order.items) }
{
    givings
        .order()
        .iter()
        .take_while(|k| **k != key)
        .any(|k| reports.has(member, *k))
}

/// Whether a member had begun a key that was first given later than a frame's, more than SAK Retire
/// Time before it.
fn has_left(givings: &Givings, reports: &Reports, member: Member, frame: &RightFrame) -> bool
    ensures { result ≡ list_any (λ k. is_retired frame.now.time (lookup (is_at (member_key_cmp (member, k))) reports.now.times.entries))
        (given_later frame.now.key givings.now.order.items) }
{
    givings
        .order()
        .iter()
        .rev()
        .take_while(|k| **k != frame.key)
        .any(|k| is_retired(frame.time, reports.time(member, *k)))
}

/// Whether a time, if there is one, is more than SAK Retire Time before another.
fn is_retired(now: u64, time: Option<u64>) -> bool
    ensures { result ≡ is_retired now time }
{
    match time {
        Some(time) => time < now && RETIRE_NANOS < now - time,
        None => false,
    }
}
