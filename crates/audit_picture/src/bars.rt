//! The bars of one sender's keys.

use crate::entry::Bar;
use crate::legend::put_key;
use crate::scale::Scale;
use lan_base::AssociationNumber;
use sheets::{Piece, Stretch, colour, put, put_rect, put_several};
use std::alloc::AllocError;
use tick_columns::{Column, Thinned};
use use_notes::Counts;

/// How high a row is, in units.
pub const ROW: u64 = 16;

/// The middle of the row of an association number, where the rows' top is so far down.
pub fn middle(top: u64, number: AssociationNumber) -> u64 {
    top.saturating_add(u64::from(number.number()) * ROW + ROW / 2)
}

/// Appends a bar for each column in which a key was first used.
pub fn put_bars(
    into: &mut Vec<u8>,
    bars: &Thinned<Bar>,
    scale: Scale,
    top: u64,
) -> Result<(), AllocError> {
    for column in bars.earlier() {
        put_bar(into, column, bars.ticks(), scale, top)?;
    }
    match bars.latest() {
        Some(column) => put_bar(into, &column, bars.ticks(), scale, top),
        None => Ok(()),
    }
}

/// Appends the bar of a column's last key.
fn put_bar(
    into: &mut Vec<u8>,
    column: &Column<Bar>,
    packets: u32,
    scale: Scale,
    top: u64,
) -> Result<(), AllocError> {
    let bar = column.last;
    let noted = bar.told.noted;
    put(
        into,
        &[
            Piece::Text(b"<g class=\"k"),
            Piece::Number(colour(noted.key)),
            Piece::Text(b"\"><title>"),
        ],
    )?;
    put_several(into, column, packets, b"packets", b"keys")?;
    put_key(into, noted.key, &bar.origin)?;
    put_counts(into, &noted.counts, bar.told.late)?;
    let across = scale.stretch(noted.counts.first, noted.counts.last);
    let at = middle(top, bar.origin.an());
    put_rect(into, b"bar", across, at.saturating_sub(5), 10)?;
    put_label(into, across, noted.key, at.saturating_add(3))?;
    put(into, &[Piece::Text(b"</g>\n")])
}

/// Appends what is told of the frames of a bar, which ends its title.
fn put_counts(into: &mut Vec<u8>, counts: &Counts, late: u32) -> Result<(), AllocError> {
    put(
        into,
        &[
            Piece::Text(b", frames "),
            Piece::Number(u64::from(counts.frames)),
            Piece::Text(b", pn "),
            Piece::Number(u64::from(counts.low)),
            Piece::Text(b" to "),
            Piece::Number(u64::from(counts.high)),
            Piece::Text(b", packets "),
            Piece::Number(u64::from(counts.first)),
            Piece::Text(b" to "),
            Piece::Number(u64::from(counts.last)),
        ],
    )?;
    put(
        into,
        &[
            Piece::Text(b", repeated "),
            Piece::Number(u64::from(counts.repeated)),
            Piece::Text(b", reused "),
            Piece::Number(u64::from(counts.reused)),
            Piece::Text(b", late "),
            Piece::Number(u64::from(late)),
            Piece::Text(b"</title>"),
        ],
    )
}

/// Appends the number of a key, where its bar has room for it.
fn put_label(into: &mut Vec<u8>, across: Stretch, key: u32, y: u64) -> Result<(), AllocError> {
    if across.width < 300 {
        return Ok(());
    }
    put(
        into,
        &[
            Piece::Text(b"<text class=\"label\" text-anchor=\"middle\" x=\""),
            Piece::Tenths(across.x.saturating_add(across.width / 2)),
            Piece::Text(b"\" y=\""),
            Piece::Number(y),
            Piece::Text(b"\">"),
            Piece::Number(u64::from(key)),
            Piece::Text(b"</text>"),
        ],
    )
}
