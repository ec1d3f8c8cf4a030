//! Where lives begin.

use crate::ends::Free;
use crate::history::Birth;
use crate::scale::Scale;
use sheets::{Piece, put, put_several};
use std::alloc::AllocError;
use tick_columns::{Column, Thinned};

/// Appends a mark for each column in which a life of a station begins, whose lane's top is so far down and whose rows are so
/// high.
pub fn put_births(
    into: &mut Vec<u8>,
    births: &Thinned<Birth>,
    scale: Scale,
    name: &[u8],
    top: u32,
    rows: u32,
) -> Result<(), AllocError> {
    let mut free = Free::new();
    for column in births.earlier() {
        put_title(into, column, births.ticks(), name)?;
        put_life(into, column.last, scale, &mut free, top, rows)?;
    }
    match births.latest() {
        Some(column) => {
            put_title(into, &column, births.ticks(), name)?;
            put_life(into, column.last, scale, &mut free, top, rows)
        }
        None => Ok(()),
    }
}

/// Appends what begins the mark of a column's last life: its title.
fn put_title<'a>(
    into: &mut Vec<u8>,
    column: &'a Column<Birth>,
    ticks: u32,
    name: &'a [u8],
) -> Result<(), AllocError> {
    put(into, &[Piece::Text(b"<g><title>")])?;
    put_several(into, column, ticks, b"ticks", b"lives")?;
    put(
        into,
        &[
            Piece::Escaped(name),
            Piece::Text(b" begins the life "),
            Piece::Hex(&column.last.mi.0),
            Piece::Text(b", tick "),
            Piece::Number(u64::from(column.last.at)),
            Piece::Text(b"</title>"),
        ],
    )
}

/// Appends what is left of the mark of a life: a dotted line along the rows, and a triangle above it.
fn put_life(
    into: &mut Vec<u8>,
    birth: Birth,
    scale: Scale,
    free: &mut Free,
    top: u32,
    rows: u32,
) -> Result<(), AllocError> {
    let x = scale.x(u64::from(birth.at));
    let top = u64::from(top);
    put(
        into,
        &[
            Piece::Text(b"<path class=\"life\" d=\"M"),
            Piece::Tenths(x),
            Piece::Text(b" "),
            Piece::Number(top.saturating_add(6)),
            Piece::Text(b"v"),
            Piece::Number(u64::from(rows)),
            Piece::Text(b"\"/><path class=\"ink\" d=\"M"),
            Piece::Tenths(free.take(x)),
            Piece::Text(b" "),
            Piece::Number(top.saturating_add(6)),
            Piece::Text(b"l-3.5 -6h7z\"/></g>\n"),
        ],
    )
}
