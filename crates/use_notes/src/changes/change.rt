//! From one key of a sender to its next one.

ghost use Rattle.std.specs.Prelude.{◌≡◌, List, []};
ghost use Rattle.lan_base.specs.declared.address.Sci.{Sci};
ghost use Rattle.use_notes.specs.declared.frame.RightFrame.{RightFrame};
ghost use Rattle.use_notes.specs.changes.Changes.{milliseconds};
ghost use Rattle.use_notes.specs.changes.Standing.{change_told};
ghost use Rattle.use_notes.specs.changes.inside.Passing.{passed, passes_on};

use crate::RightFrame;
use lan_base::Sci;

/// Nanoseconds of a millisecond.
const NANOSECONDS_OF_A_MILLISECOND: u64 = 1_000_000;

/// A change of a sender: two keys whose first frames follow each other among the first ones of its
/// keys.
#[derive(Clone, Copy, Debug, PartialEq, Eq)]
pub struct Change {
    /// The sender.
    pub sci: Sci,
    /// The key before it.
    pub from: u32,
    /// The key after it.
    pub to: u32,
    /// The packet of the last frame under the key before it that comes before `first`.
    pub last: u32,
    /// The packet of the first frame under the key after it.
    pub first: u32,
    /// How long after `last` this one came, in whole milliseconds.
    pub gap: u64,
    /// How many frames under the key before it came behind `first`.
    pub after: u32,
    /// How long after `first` the last of these came, in whole milliseconds.
    pub behind: u64,
}

/// What is kept of a change: all but its sender, and when the first frame under the key after it came.
#[derive(Clone, Copy)]
pub struct Handover {
    pub from: u32,
    pub to: u32,
    pub last: u32,
    pub first: u32,
    pub began: u64,
    pub gap: u64,
    pub after: u32,
    pub behind: u64,
}

impl Handover {
    /// From the key of the last frame under it to that of the first one under the next.
    pub fn of(last: &RightFrame, first: &RightFrame) -> Handover
        ensures { result ≡ passed last.now first.now }
    {
        Handover {
            from: last.key,
            to: first.key,
            last: last.packet,
            first: first.packet,
            began: first.time,
            gap: milliseconds(last.time, first.time),
            after: 0,
            behind: 0,
        }
    }

    /// With one frame more under the key before it.
    pub fn with(&self, frame: &RightFrame) -> Handover
        ensures { result ≡ passes_on frame.now self.now }
    {
        Handover {
            after: self.after.saturating_add(1),
            behind: milliseconds(self.began, frame.time),
            ..*self
        }
    }

    /// What is told of it, of a sender.
    pub fn told(&self, sci: Sci) -> Change
        ensures { result ≡ change_told sci self.now }
    {
        Change {
            sci,
            from: self.from,
            to: self.to,
            last: self.last,
            first: self.first,
            gap: self.gap,
            after: self.after,
            behind: self.behind,
        }
    }
}

/// Whole milliseconds from a time to another one, 0 where that is earlier.
fn milliseconds(from: u64, to: u64) -> u64
    ensures { result ≡ milliseconds from to }
{
    to.saturating_sub(from) / NANOSECONDS_OF_A_MILLISECOND
}
