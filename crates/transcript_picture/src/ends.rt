//! The marks of ends, each beside those before it.

use key_spans::{End, Why};
use sheets::{Piece, put};
use std::alloc::AllocError;

/// How wide a mark is with what lies between it and the next one, and how much of it lies to each side of its middle, in
/// tenths of a unit.
const BREADTH: u64 = 90;

const SIDE: u64 = 45;

/// A line where a key retired.
pub const RETIRED: &[u8] = b"m0 -3v6";
/// A cross where it was dropped.
pub const DROPPED: &[u8] = b"m-3 -3l6 6m0 -6l-6 6";
/// A ring where it was replaced.
pub const REPLACED: &[u8] = b"m-3 0a3 3 0 1 0 6 0a3 3 0 1 0 -6 0";
/// A square where its station began again.
pub const RESTARTED: &[u8] = b"m-2.5 -2.5h5v5h-5z";
/// A diamond where its station left the group.
pub const LEFT: &[u8] = b"m-3.5 0l3.5 -3.5l3.5 3.5l-3.5 3.5z";
/// An arrow where it is still held.
pub const HELD: &[u8] = b"m-1 -3l5 3l-5 3";

/// Where the first place behind all marks of a row lies, in tenths of a unit: so each stands beside those before it.
#[derive(Drop)]
pub struct Free {
    from: u64,
}

impl Free {
    /// No mark.
    pub fn new() -> Free {
        Free { from: 0 }
    }

    /// Where the mark of an end at this place stands: before it, or behind the last mark where that is in its way.
    pub fn before(&mut self, at: u64) -> u64 {
        self.take(at.saturating_sub(SIDE))
    }

    /// Where a mark of this place stands: there, or behind the last one where that is in its way.
    pub fn take(&mut self, at: u64) -> u64 {
        let at = at.max(self.from);
        self.from = at.saturating_add(BREADTH);
        at
    }
}

/// Appends the mark of a key's end, whose middle is at this height.
pub fn put_end(
    into: &mut Vec<u8>,
    ended: Option<End>,
    at: u64,
    middle: u64,
) -> Result<(), AllocError> {
    let shape = match ended {
        None => HELD,
        Some(End { why, .. }) => match why {
            Why::Retired => RETIRED,
            Why::Dropped => DROPPED,
            Why::Replaced => REPLACED,
            Why::Restarted => RESTARTED,
            Why::Left => LEFT,
        },
    };
    put_mark(into, shape, at, middle)
}

/// Appends a mark.
pub fn put_mark(into: &mut Vec<u8>, shape: &[u8], at: u64, middle: u64) -> Result<(), AllocError> {
    put(
        into,
        &[
            Piece::Text(b"<path class=\"mark\" d=\"M"),
            Piece::Tenths(at),
            Piece::Text(b" "),
            Piece::Number(middle),
            Piece::Text(shape),
            Piece::Text(b"\"/>"),
        ],
    )
}
