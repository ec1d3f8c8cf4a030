//! What a race shows, in the order of its events, and that it is told.

ghost use Rattle.std.specs.Prelude.{◌≡◌, List, IfOk, OnOk, MatchResult, length};
ghost use Rattle.lan_core.specs.declared.fact.Fact.{Fact};
ghost use Rattle.fact_tally.specs.Summary.{counts};
ghost use Rattle.lan_schedule.specs.Reports.{AreTold, Report};
ghost use Rattle.lan_schedule.specs.inside.Weaves.{shown_in, shown_of, kept_behind, frames_behind};
ghost use Rattle.trace_acts.specs.Tellings.{WereToldUpTo};
ghost use Rattle.lan_schedule.specs.inside.Weaves.{claim_shown, facts_in};

use crate::keeping::KeptEvents;
use crate::recorder::Preparing;
use crate::stage::count_all;
use fact_tally::Tally;
use lan_base::{Protected, Unwritten};
use lan_core::{Event, Fact, Facts, Lack};
use std::alloc::{AllocError, Global};

/// What the events of a race show, in their order, by what was kept of those of control, and by the
/// frames of the claims that got a number; all of it is counted.
pub fn shown_in(
    alloc: Global,
    events: &[Event],
    mut kept: KeptEvents,
    frames: &[Protected],
    tally: &mut Tally,
) -> Result<KeptEvents, AllocError>
    ensures shown { IfOk result (λ shown. shown ≡ shown_in events.now kept frames.now) }
    ensures counted { (before : List Fact) → tally.old ≡ counts before
        → OnOk result (tally.new ≡ counts (facts_in before (shown_in events.now kept frames.now))) }
{
    let mut shown = KeptEvents::new(alloc);
    let mut left = frames;
    for event in events {
        let facts = shown_of(alloc, event, &mut kept, left)?;
        left = frames_behind(event, left);
        count_all(tally, facts.as_slice());
        shown.keep(facts)?;
    }
    Ok(shown)
}

/// What an event shows.
fn shown_of(
    alloc: Global,
    event: &Event,
    kept: &mut KeptEvents,
    frames: &[Protected],
) -> Result<Facts, AllocError>
    ensures shown { IfOk result (λ facts. facts ≡ shown_of event.now kept.old frames.now) }
    ensures kept { OnOk result (kept.new ≡ kept_behind event.now kept.old) }
{
    if let Event::Claim { station, pn, .. } = event {
        return claim_shown(alloc, *station, *pn, frames);
    }
    match kept.next() {
        Some(facts) => Ok(facts),
        None => Ok(Facts::new(alloc)),
    }
}

/// What a claim shows: the number that the next frame was protected under, or that no key transmits.
fn claim_shown(
    alloc: Global,
    station: u8,
    pn: u32,
    frames: &[Protected],
) -> Result<Facts, AllocError>
    ensures { IfOk result (λ facts. facts ≡ claim_shown station pn frames.now) }
{
    if pn == 0 {
        let why = Lack::NoKey;
        return Facts::one(alloc, Fact::Unclaimed { station, why });
    }
    match frames.first() {
        Some(frame) => Facts::one(
            alloc,
            Fact::Claimed {
                station: frame.station,
                an: frame.an,
                epoch: frame.epoch,
                pn: frame.pn,
            },
        ),
        None => Ok(Facts::new(alloc)),
    }
}

/// The frames that are left behind an event.
fn frames_behind<'f>(event: &Event, frames: &'f [Protected]) -> &'f [Protected]
    ensures { result.now ≡ frames_behind event.now frames.now }
{
    match event {
        Event::Claim { pn, .. } if *pn > 0 => match frames.split_first() {
            Some((_, later)) => later,
            None => frames,
        },
        _ => frames,
    }
}

/// So many reports that a recorder has ready are told, the first one first.
pub fn tell_all<K, R: Preparing<K>>(
    count: usize,
    recorder: &mut R,
    outlet: &mut K,
) -> Result<(), Unwritten>
    ensures { (all : List Report) → R.Ready recorder.old all → length all ≡ count
        → MatchResult result (λ _. AreTold R.Took outlet.old all outlet.new)
        (λ why. WereToldUpTo R.Took R.Broke all outlet.old outlet.new why) }
{
    for _ in 0..count {
        recorder.tell(outlet)?;
    }
    Ok(())
}
