//! The entries of a legend: their colours, and where they stand.

use crate::pieces::{Piece, put};
use std::alloc::AllocError;

/// The most entries of a legend.
pub const ENTRIES_MAX: u64 = 40;
/// How many colours there are.
const COLOURS: u32 = 8;
/// How many entries stand side by side.
const ABREAST: u64 = 4;

/// The colour of what has this number.
pub fn colour(number: u32) -> u64 {
    u64::from(number % COLOURS)
}

/// How high a legend of so many entries is, in units.
pub fn legend_height(entries: u64) -> u64 {
    entries
        .div_ceil(ABREAST)
        .saturating_mul(16)
        .saturating_add(40)
}

/// Where an entry stands, from 0, of a legend whose top is so far down and whose entries have so much
/// room.
pub fn entry_at(place: u64, room: u64, top: u64) -> (u64, u64) {
    let x = (place % ABREAST).saturating_mul(room).saturating_add(20);
    let y = (place / ABREAST).saturating_mul(16).saturating_add(top);
    (x, y)
}

/// Appends how many further ones a legend does not explain, whose foot is so far down.
pub fn put_further<'a>(
    into: &mut Vec<u8>,
    foot: u64,
    before: &'a [u8],
    count: u64,
    behind: &'a [u8],
) -> Result<(), AllocError> {
    put(
        into,
        &[
            Piece::Text(b"<text x=\"20\" y=\""),
            Piece::Number(foot.saturating_sub(32)),
            Piece::Text(b"\">"),
            Piece::Text(before),
            Piece::Number(count),
            Piece::Text(behind),
            Piece::Text(b"</text>\n"),
        ],
    )
}
