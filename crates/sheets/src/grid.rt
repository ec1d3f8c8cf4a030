//! The lines of an axis: how far apart they lie, and each with its number above.

use crate::pieces::{Piece, put};
use std::alloc::AllocError;

/// The most lines.
pub const LINES: u64 = 12;

/// How far apart lines lie, where it is not far.
const STEPS: [u64; 16] = [
    1, 2, 5, 10, 20, 50, 100, 200, 500, 1_000, 2_000, 5_000, 10_000, 20_000, 50_000, 100_000,
];

/// How far apart the lines of so many lie: the first step that makes the lines few, of those that are
/// not far and then of these.
pub fn step_of(count: u64, far: &[u64]) -> u64 {
    for step in STEPS {
        if count / LINES < step {
            return step;
        }
    }
    for step in far {
        if count / LINES < *step {
            return *step;
        }
    }
    500_000_000
}

/// Appends a line from one height to another, and above it its number with its unit.
pub fn put_line(
    into: &mut Vec<u8>,
    x: u64,
    top: u64,
    bottom: u64,
    number: u64,
    unit: &[u8],
) -> Result<(), AllocError> {
    put(
        into,
        &[
            Piece::Text(b"<path class=\"grid\" d=\"M"),
            Piece::Tenths(x),
            Piece::Text(b" "),
            Piece::Number(top),
            Piece::Text(b"V"),
            Piece::Number(bottom),
        ],
    )?;
    put_number(into, x, top.saturating_sub(4), number, unit)
}

/// Appends what ends a line, and its number at this height.
fn put_number(
    into: &mut Vec<u8>,
    x: u64,
    y: u64,
    number: u64,
    unit: &[u8],
) -> Result<(), AllocError> {
    put(
        into,
        &[
            Piece::Text(b"\"/><text class=\"small\" text-anchor=\"middle\" x=\""),
            Piece::Tenths(x),
            Piece::Text(b"\" y=\""),
            Piece::Number(y),
            Piece::Text(b"\">"),
            Piece::Number(number),
            Piece::Text(unit),
            Piece::Text(b"</text>\n"),
        ],
    )
}
