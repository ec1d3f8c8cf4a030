//! What arrived at one station, column by column.

use crate::columns::Columns;
use crate::kind::{Kind, Tally};
use crate::layout::{Layout, STRIP};
use crate::scale::Scale;
use sheets::{Piece, put, put_titled_rect};
use std::alloc::AllocError;

/// Appends the strips of a station below this height.
pub fn put_counts(
    into: &mut Vec<u8>,
    columns: &Columns,
    layout: &Layout,
    scale: Scale,
    station: u8,
    top: u32,
) -> Result<(), AllocError> {
    let tallies = columns.of(station);
    let mut foot = top;
    for kind in &layout.kinds {
        foot = foot.saturating_add(STRIP);
        put_strip(into, *kind, tallies, columns.ticks(), scale, foot)?;
    }
    Ok(())
}

/// Appends the strip of one kind, which stands on this line: its word, a bar for each column in which
/// something arrived, and how many there were.
fn put_strip(
    into: &mut Vec<u8>,
    kind: Kind,
    tallies: &[Tally],
    ticks: u32,
    scale: Scale,
    foot: u32,
) -> Result<(), AllocError> {
    let most = greatest(kind, tallies);
    let mut all = 0u64;
    let mut from = 0u64;
    put_word(into, kind.word(), foot)?;
    for tally in tallies {
        let count = kind.of(tally);
        let to = from.saturating_add(u64::from(ticks));
        if count > 0 {
            put_column(into, kind, count, most, from, to, scale, foot)?;
        }
        all = all.saturating_add(count);
        from = to;
    }
    put_sum(into, all, foot)
}

/// Appends a word before its strip.
pub fn put_word(into: &mut Vec<u8>, word: &[u8], foot: u32) -> Result<(), AllocError> {
    put(
        into,
        &[
            Piece::Text(b"<text class=\"small\" x=\"62\" y=\""),
            Piece::Number(u64::from(foot)),
            Piece::Text(b"\">"),
            Piece::Text(word),
            Piece::Text(b"</text>"),
        ],
    )
}

/// Appends how many there were, behind their strip.
pub fn put_sum(into: &mut Vec<u8>, all: u64, foot: u32) -> Result<(), AllocError> {
    put(
        into,
        &[
            Piece::Text(b"<text class=\"small\" x=\"1134\" y=\""),
            Piece::Number(u64::from(foot)),
            Piece::Text(b"\">"),
            Piece::Number(all),
            Piece::Text(b"</text>\n"),
        ],
    )
}

/// The greatest count of a kind.
fn greatest(kind: Kind, tallies: &[Tally]) -> u64 {
    let mut most = 0;
    for tally in tallies {
        most = most.max(kind.of(tally));
    }
    most
}

/// Appends the bar of a column.
fn put_column(
    into: &mut Vec<u8>,
    kind: Kind,
    count: u64,
    most: u64,
    from: u64,
    to: u64,
    scale: Scale,
    foot: u32,
) -> Result<(), AllocError> {
    let across = scale.stretch(from, to);
    let height = count
        .saturating_mul(6)
        .checked_div(most)
        .unwrap_or(0)
        .saturating_add(3);
    let top = u64::from(foot).saturating_sub(height);
    put_titled_rect(into, kind.word(), across, top, height)?;
    put_title(into, kind, count, from, to)
}

/// Appends the title of the bar of a column, and what ends the bar.
fn put_title(
    into: &mut Vec<u8>,
    kind: Kind,
    count: u64,
    from: u64,
    to: u64,
) -> Result<(), AllocError> {
    put(
        into,
        &[
            Piece::Number(count),
            Piece::Text(b" "),
            Piece::Text(kind.word()),
            Piece::Text(b", ticks "),
            Piece::Number(from),
            Piece::Text(b" to "),
            Piece::Number(to.saturating_sub(1)),
            Piece::Text(b"</title></rect>"),
        ],
    )
}
