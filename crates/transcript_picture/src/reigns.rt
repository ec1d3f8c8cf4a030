//! When stations serve.

use crate::ends::{LEFT, put_mark};
use crate::labels::Label;
use crate::scale::Scale;
use crate::scene::Scene;
use key_spans::Reign;
use sheets::{Piece, put, put_several, put_titled_rect};
use std::alloc::AllocError;
use tick_columns::Column;

/// How high the line of a station that served is, in units.
pub const REIGN: u32 = 13;

/// The line of a station: its name, when it left, and how far down it is.
#[derive(Clone, Copy)]
struct Line<'a> {
    scale: Scale,
    name: &'a [u8],
    left: Option<u32>,
    top: u32,
}

/// How many of the stations served.
pub fn served(scene: &Scene, labels: &[Label]) -> u32 {
    let mut count = 0u32;
    for label in labels {
        if has_served(scene, label.place) {
            count = count.saturating_add(1);
        }
    }
    count
}

/// Whether a station served.
fn has_served(scene: &Scene, station: u8) -> bool {
    match scene.reigns().row(station) {
        Some(row) => row.latest().is_some(),
        None => false,
    }
}

/// Appends a line for each station that served, the first of which is so far down.
pub fn put_reigns(
    into: &mut Vec<u8>,
    scene: &Scene,
    scale: Scale,
    labels: &[Label],
    first: u32,
) -> Result<(), AllocError> {
    let mut top = first;
    for label in labels {
        if has_served(scene, label.place) {
            let line = Line {
                scale,
                name: label.text.as_slice(),
                left: scene.seats().left(label.place),
                top,
            };
            put_line(into, scene, label.place, line)?;
            top = top.saturating_add(REIGN);
        }
    }
    Ok(())
}

/// Appends the line of a station that served.
fn put_line(into: &mut Vec<u8>, scene: &Scene, station: u8, line: Line) -> Result<(), AllocError> {
    put(
        into,
        &[
            Piece::Text(b"<text x=\"8\" y=\""),
            Piece::Number(u64::from(line.top).saturating_add(10)),
            Piece::Text(b"\">"),
            Piece::Escaped(line.name),
            Piece::Text(b" serves</text>\n"),
        ],
    )?;
    let Some(row) = scene.reigns().row(station) else {
        return Ok(());
    };
    for column in row.earlier() {
        put_reign(into, column, row.ticks(), line)?;
    }
    match row.latest() {
        Some(column) => put_reign(into, &column, row.ticks(), line),
        None => Ok(()),
    }
}

/// Appends the last reign of a column, and where it is over as the station left the group, a mark.
fn put_reign(
    into: &mut Vec<u8>,
    column: &Column<Reign>,
    ticks: u32,
    line: Line,
) -> Result<(), AllocError> {
    let reign = column.last.resigned(line.left);
    let to = match reign.to {
        Some(to) => u64::from(to),
        None => line.scale.ticks(),
    };
    let across = line.scale.stretch(u64::from(reign.from), to);
    let top = u64::from(line.top);
    put_titled_rect(into, b"ink", across, top.saturating_add(4), 5)?;
    put_several(into, column, ticks, b"ticks", b"times")?;
    put_times(into, reign, to, line.name)?;
    if column.last.to.is_none() && reign.to.is_some() {
        let end = across.x.saturating_add(across.width).saturating_add(55);
        put_mark(into, LEFT, end, top.saturating_add(6))?;
    }
    put(into, &[Piece::Text(b"\n")])
}

/// Appends what ends the title of a reign, and its line.
fn put_times(into: &mut Vec<u8>, reign: Reign, to: u64, name: &[u8]) -> Result<(), AllocError> {
    put(
        into,
        &[
            Piece::Escaped(name),
            Piece::Text(b" serves, ticks "),
            Piece::Number(u64::from(reign.from)),
            Piece::Text(b" to "),
            Piece::Number(to),
            Piece::Text(b"</title></rect>"),
        ],
    )
}
