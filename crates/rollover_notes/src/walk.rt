//! A fresh frame is told to the speakers of all SCIs.

ghost use Rattle.std.specs.Prelude.{◌≡◌, ◌||◌, IfOk, OnOk};
ghost use Rattle.rollover_notes.specs.Timings.{is_late};
ghost use Rattle.rollover_notes.specs.inside.Putting.{CountsMore};
ghost use Rattle.rollover_notes.specs.inside.Walking.{IsToldToAll, timing_at};

use crate::counts::{Counts, count};
use crate::givings::Givings;
use crate::late_frames::LateFrames;
use crate::reports::Reports;
use crate::saying::Member;
use crate::speakers::Speakers;
use crate::timing::Timing;
use lan_base::{Mi, Sci};
use std::alloc::AllocError;
use std::collections::BTreeMap;
use use_notes::RightFrame;

/// A frame is told to each speaker, and counted under those to which it comes early or joining:
/// whether it is late to one of them.
pub fn tell(
    counts: &mut BTreeMap<(u32, Member), Counts>,
    givings: &Givings,
    reports: &Reports,
    speakers: &Speakers,
    frame: &RightFrame,
) -> Result<bool, AllocError>
    ensures { IfOk result (λ late. IsToldToAll (timing_at givings.now reports.now speakers.now frame.now) speakers.now.last.entries frame.now counts.old.entries counts.new.entries late) }
{
    let mut late = false;
    for (at, mi) in &speakers.last {
        let timing = timing_at(givings, reports, speakers, *at, *mi, frame);
        count(counts, (frame.key, (at.0, *mi)), frame.packet, timing)?;
        late = or_late(late, timing);
    }
    Ok(late)
}

/// Whether one was late, or this one is.
fn or_late(late: bool, timing: Timing) -> bool
    ensures { result ≡ (late || is_late timing) }
{
    late || timing.is_late()
}

/// What a frame is to a speaker.
fn timing_at(
    givings: &Givings,
    reports: &Reports,
    speakers: &Speakers,
    at: (u32, Sci),
    mi: Mi,
    frame: &RightFrame,
) -> Timing
    ensures { result ≡ timing_at givings.now reports.now speakers.now frame.now (at, mi) }
{
    if speakers.is_voice(at, mi, frame) {
        Timing::of(givings, reports, (at.0, mi), frame)
    } else {
        Timing::InTime
    }
}

/// A frame is counted under its key and sender, if it is late.
pub fn count_late(
    counts: &mut BTreeMap<(u32, Sci), LateFrames>,
    frame: &RightFrame,
    is_late: bool,
) -> Result<(), AllocError>
    ensures { OnOk result (CountsMore is_late frame.now.packet (frame.now.key, frame.now.sci) counts.old.entries counts.new.entries) }
{
    if is_late {
        let at = (frame.key, frame.sci);
        let before = counts.get(&at).copied().unwrap_or(LateFrames::none());
        counts.insert(at, before.with(frame.packet))?;
    }
    Ok(())
}
