//! How many frames under one key came to one member that was not ready for it.

ghost use Rattle.std.specs.Prelude.{◌≡◌, OnOk};
ghost use Rattle.rollover_notes.specs.Counted.{first_of, more, no_frames, with_early, with_joining};
ghost use Rattle.rollover_notes.specs.inside.Walking.{counts_at, told};

use crate::saying::Member;
use crate::timing::Timing;
use std::alloc::AllocError;
use std::collections::BTreeMap;

/// How many frames came early and how many joining, and the first packet of each.
#[derive(Clone, Copy, Debug, PartialEq, Eq)]
pub struct Counts {
    pub early: u32,
    pub first_early: u32,
    pub joining: u32,
    pub first_joining: u32,
}

impl Counts {
    /// No frame.
    pub fn none() -> Counts
        ensures { result ≡ no_frames }
    {
        Counts {
            early: 0,
            first_early: 0,
            joining: 0,
            first_joining: 0,
        }
    }

    /// An early frame more.
    pub fn with_early(self, packet: u32) -> Counts
        ensures { result ≡ with_early packet self }
    {
        Counts {
            early: more(self.early),
            first_early: first_of(self.early, self.first_early, packet),
            ..self
        }
    }

    /// A joining frame more.
    pub fn with_joining(self, packet: u32) -> Counts
        ensures { result ≡ with_joining packet self }
    {
        Counts {
            joining: more(self.joining),
            first_joining: first_of(self.joining, self.first_joining, packet),
            ..self
        }
    }
}

/// A count with one more.
pub fn more(count: u32) -> u32
    ensures { result ≡ more count }
{
    count.saturating_add(1)
}

/// The first packet, where that of this one is the first if none was counted.
pub fn first_of(count: u32, first: u32, packet: u32) -> u32
    ensures { result ≡ first_of count first packet }
{
    if count == 0 { packet } else { first }
}

/// A frame of a packet is counted under a key and a member, if it came early or joining.
pub fn count(
    counts: &mut BTreeMap<(u32, Member), Counts>,
    at: (u32, Member),
    packet: u32,
    timing: Timing,
) -> Result<(), AllocError>
    ensures { OnOk result (counts_at counts.new.entries ≡ told (counts_at counts.old.entries) at packet timing) }
{
    let before = counts.get(&at).copied().unwrap_or(Counts::none());
    match timing {
        Timing::Early => {
            counts.insert(at, before.with_early(packet))?;
        }
        Timing::Joining => {
            counts.insert(at, before.with_joining(packet))?;
        }
        Timing::Late | Timing::InTime => {}
    }
    Ok(())
}
