//! How many a column holds.

use crate::pieces::{Piece, put};
use std::alloc::AllocError;
use tick_columns::{Column, Timed};

/// Appends how many there are in a column of so many of a unit of time, where it holds several: what is
/// told behind that is told of the last one.
pub fn put_several<'a, T: Copy + Timed>(
    into: &mut Vec<u8>,
    column: &Column<T>,
    breadth: u32,
    unit: &'a [u8],
    word: &'a [u8],
) -> Result<(), AllocError> {
    if column.before == 0 {
        return Ok(());
    }
    let from = first_of(column.last.at(), breadth);
    put(
        into,
        &[
            Piece::Number(column.before.saturating_add(1)),
            Piece::Text(b" "),
            Piece::Text(word),
            Piece::Text(b", "),
            Piece::Text(unit),
            Piece::Text(b" "),
            Piece::Number(from),
            Piece::Text(b" to "),
            Piece::Number(from.saturating_add(u64::from(breadth)).saturating_sub(1)),
            Piece::Text(b", the last: "),
        ],
    )
}

/// The first time of the column of so many in which this one lies.
fn first_of(at: u32, breadth: u32) -> u64 {
    let place = at.checked_div(breadth).unwrap_or(0);
    u64::from(place).saturating_mul(u64::from(breadth))
}
