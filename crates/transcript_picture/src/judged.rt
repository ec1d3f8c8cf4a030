//! What tells most, on top: how much of what arrived was missed, late or bad.

use crate::kind::{Kind, Tally};
use sheets::{Piece, put};
use std::alloc::AllocError;

/// The kinds that are told of, and how far to the right each is, in units.
const TOLD: [(Kind, u64); 3] = [(Kind::Missed, 8), (Kind::Late, 208), (Kind::Bad, 308)];
/// What digits are told apart by: three each.
const THOUSANDS: [u64; 7] = [
    1_000_000_000_000_000_000,
    1_000_000_000_000_000,
    1_000_000_000_000,
    1_000_000_000,
    1_000_000,
    1_000,
    1,
];

/// Appends the line of all that arrived, at this height.
pub fn put_judged(into: &mut Vec<u8>, all: &Tally, y: u64) -> Result<(), AllocError> {
    for (kind, x) in TOLD {
        put_kind(into, kind, all, x, y)?;
    }
    Ok(())
}

/// Appends how many there were of a kind, of missed frames of how many.
fn put_kind(into: &mut Vec<u8>, kind: Kind, all: &Tally, x: u64, y: u64) -> Result<(), AllocError> {
    let count = kind.of(all);
    let class: &[u8] = if count > 0 { b"broken" } else { b"judged" };
    put(
        into,
        &[
            Piece::Text(b"<text class=\""),
            Piece::Text(class),
            Piece::Text(b"\" x=\""),
            Piece::Number(x),
            Piece::Text(b"\" y=\""),
            Piece::Number(y),
            Piece::Text(b"\">"),
            Piece::Text(kind.word()),
            Piece::Text(b" "),
        ],
    )?;
    put_grouped(into, count)?;
    if let Kind::Missed = kind {
        put(into, &[Piece::Text(b" of ")])?;
        put_grouped(into, all.sum())?;
    }
    put(into, &[Piece::Text(b"</text>\n")])
}

/// Appends a number with a comma before each three digits.
fn put_grouped(into: &mut Vec<u8>, number: u64) -> Result<(), AllocError> {
    let mut is_begun = false;
    for unit in THOUSANDS {
        let part = number.checked_div(unit).unwrap_or(0);
        if is_begun {
            put_three(into, part % 1_000)?;
        } else if part > 0 || unit == 1 {
            put(into, &[Piece::Number(part)])?;
            is_begun = true;
        }
    }
    Ok(())
}

/// Appends a comma and three digits.
fn put_three(into: &mut Vec<u8>, number: u64) -> Result<(), AllocError> {
    put(
        into,
        &[
            Piece::Text(b","),
            Piece::Number(number / 100),
            Piece::Number(number / 10 % 10),
            Piece::Number(number % 10),
        ],
    )
}
