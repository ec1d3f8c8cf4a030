//! What is told of the frames of one key and sender.

ghost use Rattle.std.specs.Prelude.{◌≡◌, ◌==◌, ◌&&◌, if◌then◌else◌, not, List, [], ◌∷◌};
ghost use Rattle.use_notes.specs.declared.frame.RightFrame.{RightFrame};
ghost use Rattle.use_notes.specs.Frames.{AreInOrder, first_alike, is_fresh, novelty as novelty_of};
ghost use Rattle.use_notes.specs.Uses.{counts_of, delay};
ghost use Rattle.use_notes.specs.inside.Keeping.{counts_with, lag_behind, lower_of, more_of};

use crate::frame::{First, RightFrame};
use crate::novelty::Novelty;

/// Nanoseconds of a millisecond.
const NANOSECONDS_OF_A_MILLISECOND: u64 = 1_000_000;

/// What is told of the right frames of one key and sender.
#[derive(Clone, Copy, Debug, PartialEq, Eq)]
pub struct Counts {
    /// How many there are.
    pub frames: u32,
    /// The least packet number.
    pub low: u32,
    /// The greatest packet number.
    pub high: u32,
    /// The packet of the first fresh one.
    pub first: u32,
    /// The packet of the last fresh one.
    pub last: u32,
    /// How many repeat an earlier one.
    pub repeated: u32,
    /// The longest time from a frame to a repetition of it, in whole milliseconds.
    pub longest: u64,
    /// How many use an earlier one's packet number with another check value.
    pub reused: u32,
    /// How many new ones have a packet number below one before.
    pub fell: u32,
    /// The least replay window under which none of the new ones is late.
    pub window: u64,
    /// How many fresh ones are without confidentiality.
    pub clear: u32,
}

impl Counts {
    /// Of no frame.
    pub(crate) fn none() -> Counts
        ensures { result ≡ counts_of [] }
    {
        Counts {
            frames: 0,
            low: 0,
            high: 0,
            first: 0,
            last: 0,
            repeated: 0,
            longest: 0,
            reused: 0,
            fell: 0,
            window: 0,
            clear: 0,
        }
    }

    /// Of a frame more, by what it is behind those before it, and by the first one that it is alike, if
    /// there is one.
    pub(crate) fn with(&self, frame: &RightFrame, novelty: Novelty, alike: Option<First>) -> Counts
        ensures step { result ≡ counts_with self.now novelty alike frame.now }
        ensures counted { (fs : List RightFrame) → self.now ≡ counts_of fs
            → novelty ≡ novelty_of fs frame.now
            → alike ≡ first_alike frame.now.pn frame.now.check fs → AreInOrder (frame.now ∷ fs)
            → result ≡ counts_of (frame.now ∷ fs) }
    {
        let lag = self.lag(frame.pn, novelty);
        Counts {
            frames: more(self.frames, true),
            low: self.lower(frame.pn),
            high: frame.pn.max(self.high),
            first: self.oldest(frame.packet),
            last: self.newest(frame.packet, novelty),
            repeated: more(self.repeated, novelty.is_repeated()),
            longest: delay(alike, frame).max(self.longest),
            reused: more(self.reused, novelty.is_reused()),
            fell: more(self.fell, lag != 0),
            window: lag.max(self.window),
            clear: more(self.clear, is_clear(frame, novelty)),
        }
    }

    /// The least packet number with this one more.
    fn lower(&self, pn: u32) -> u32
        ensures { result ≡ lower_of self.now.frames self.now.low pn }
    {
        if self.frames == 0 {
            pn
        } else {
            pn.min(self.low)
        }
    }

    /// The packet of the first fresh frame, where this one is fresh if it is the first.
    fn oldest(&self, packet: u32) -> u32
        ensures { result ≡ (if self.now.frames == 0 then packet else self.now.first) }
    {
        if self.frames == 0 { packet } else { self.first }
    }

    /// The packet of the last fresh frame.
    fn newest(&self, packet: u32, novelty: Novelty) -> u32
        ensures { result ≡ (if is_fresh novelty then packet else self.now.last) }
    {
        if novelty.is_fresh() {
            packet
        } else {
            self.last
        }
    }

    /// The least window under which a frame isn't late, 0 where it didn't fall.
    fn lag(&self, pn: u32, novelty: Novelty) -> u64
        ensures { result ≡ lag_behind self.now.high pn novelty }
    {
        if novelty.is_new() && pn < self.high {
            u64::from(self.high) + 1 - u64::from(pn)
        } else {
            0
        }
    }
}

/// A count with one more, if that is counted.
fn more(count: u32, counted: bool) -> u32
    ensures { result ≡ more_of count counted }
{
    count.saturating_add(u32::from(counted))
}

/// Whether a frame is fresh and without confidentiality.
fn is_clear(frame: &RightFrame, novelty: Novelty) -> bool
    ensures { result ≡ (is_fresh novelty && not frame.now.confidential) }
{
    novelty.is_fresh() && !frame.confidential
}

/// How many whole milliseconds after the first one that it is alike a frame comes.
fn delay(alike: Option<First>, frame: &RightFrame) -> u64
    ensures { result ≡ delay alike frame.now }
{
    match alike {
        Some(alike) => frame.time.saturating_sub(alike.time) / NANOSECONDS_OF_A_MILLISECOND,
        None => 0,
    }
}
