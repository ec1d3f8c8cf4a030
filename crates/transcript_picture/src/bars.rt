//! The bars of one station's keys.

use crate::ends::{Free, put_end};
use crate::keys::{Names, colour_of, letters, put_name};
use crate::layout::{Layout, ROW};
use crate::legend::Legend;
use crate::scale::Scale;
use crate::scene::Scene;
use key_spans::{Span, Why};
use lan_base::{AssociationNumber, KeyId};
use sheets::{Piece, Stretch, put, put_rect, put_several};
use std::alloc::AllocError;
use tick_columns::{Column, Thinned};

/// How far below the top of a row the middle of its bars lies, in units.
const MIDDLE: u32 = 4;
/// How wide a letter of a label is, in tenths of a unit.
const LETTER: u64 = 62;

/// A row: where ticks lie, when its station left the group, and how far down it is.
#[derive(Clone, Copy)]
struct Row {
    scale: Scale,
    left: Option<u32>,
    top: u32,
}

/// Appends the rows of a station, whose top is so far down.
pub fn put_rows(
    into: &mut Vec<u8>,
    scene: &Scene,
    layout: &Layout,
    names: &Names,
    scale: Scale,
    station: u8,
    top: u32,
) -> Result<(), AllocError> {
    let left = scene.seats().left(station);
    let mut top = top;
    for number in &layout.numbers {
        put_row_line(into, *number, top)?;
        if let Some(spans) = scene.spans().row(station, *number) {
            let row = Row { scale, left, top };
            put_bars(into, spans, scene.legend(), names, row)?;
        }
        top = top.saturating_add(ROW);
    }
    Ok(())
}

/// Appends the line of a row, and its number.
fn put_row_line(into: &mut Vec<u8>, number: AssociationNumber, top: u32) -> Result<(), AllocError> {
    let middle = u64::from(top.saturating_add(MIDDLE));
    put(
        into,
        &[
            Piece::Text(b"<path class=\"row\" d=\"M110 "),
            Piece::Number(middle),
            Piece::Text(b"H1120\"/><text class=\"small\" x=\"88\" y=\""),
            Piece::Number(middle.saturating_add(3)),
            Piece::Text(b"\">an "),
            Piece::Number(u64::from(number.number())),
            Piece::Text(b"</text>\n"),
        ],
    )
}

/// Appends a bar for each column of a row in which a key was installed.
fn put_bars(
    into: &mut Vec<u8>,
    spans: &Thinned<Span>,
    legend: &Legend,
    names: &Names,
    row: Row,
) -> Result<(), AllocError> {
    let mut free = Free::new();
    for column in spans.earlier() {
        put_bar(into, column, spans.ticks(), legend, names, row, &mut free)?;
    }
    match spans.latest() {
        Some(column) => put_bar(into, &column, spans.ticks(), legend, names, row, &mut free),
        None => Ok(()),
    }
}

/// Appends the bar of a column's last key, which ends where its station left the group: thin while it is only received, thick
/// while it transmits, and below its end a mark that says why.
fn put_bar(
    into: &mut Vec<u8>,
    column: &Column<Span>,
    ticks: u32,
    legend: &Legend,
    names: &Names,
    row: Row,
    free: &mut Free,
) -> Result<(), AllocError> {
    let span = column.last.parted(row.left);
    put(
        into,
        &[
            Piece::Text(b"<g class=\"key k"),
            Piece::Number(colour_of(legend, span.id)),
            Piece::Text(b"\"><title>"),
        ],
    )?;
    put_several(into, column, ticks, b"ticks", b"keys")?;
    put_name_of(into, &span, legend, names)?;
    put_title(into, &span)?;
    put_shapes(into, &span, legend, names, row, free)?;
    put(into, &[Piece::Text(b"</g>\n")])
}

/// Appends the shapes of a key's bar.
fn put_shapes(
    into: &mut Vec<u8>,
    span: &Span,
    legend: &Legend,
    names: &Names,
    row: Row,
    free: &mut Free,
) -> Result<(), AllocError> {
    let end = match span.ended {
        Some(end) => u64::from(end.at),
        None => row.scale.ticks(),
    };
    let whole = row.scale.stretch(u64::from(span.installed), end);
    let top = u64::from(row.top);
    put_rect(into, b"thin", whole, top.saturating_add(2), 4)?;
    if let Some(began) = span.began {
        let until = match span.relieved {
            Some(relieved) => u64::from(relieved),
            None => end,
        };
        let thick = row.scale.stretch(u64::from(began), until);
        put_rect(into, b"thick", thick, top, 8)?;
        put_label(into, thick, legend, names, span.id, top)?;
    }
    let at = free.before(whole.x.saturating_add(whole.width));
    put_end(into, span.ended, at, top.saturating_add(11))
}

/// Appends the name of a key, where it has one and its bar has room for it.
fn put_label(
    into: &mut Vec<u8>,
    across: Stretch,
    legend: &Legend,
    names: &Names,
    id: KeyId,
    top: u64,
) -> Result<(), AllocError> {
    let Some(letters) = letters(legend, names, id) else {
        return Ok(());
    };
    if across.width < letters.saturating_mul(LETTER).saturating_add(60) {
        return Ok(());
    }
    put(
        into,
        &[
            Piece::Text(b"<text class=\"label\" x=\""),
            Piece::Tenths(across.x.saturating_add(30)),
            Piece::Text(b"\" y=\""),
            Piece::Number(top.saturating_add(7)),
            Piece::Text(b"\">"),
        ],
    )?;
    put_name(into, legend, names, id)?;
    put(into, &[Piece::Text(b"</text>")])
}

/// Appends the front of the title of a key: its name, and its identifier.
fn put_name_of(
    into: &mut Vec<u8>,
    span: &Span,
    legend: &Legend,
    names: &Names,
) -> Result<(), AllocError> {
    put(into, &[Piece::Text(b"key ")])?;
    put_name(into, legend, names, span.id)?;
    put(
        into,
        &[
            Piece::Text(b" ("),
            Piece::Number(u64::from(span.id.number)),
            Piece::Text(b" of "),
            Piece::Hex(&span.id.server.0),
            Piece::Text(b")"),
        ],
    )
}

/// Appends what ends the title of a key: its epoch, and its times in ticks.
fn put_title(into: &mut Vec<u8>, span: &Span) -> Result<(), AllocError> {
    put(
        into,
        &[
            Piece::Text(b", epoch "),
            Piece::Number(u64::from(span.epoch)),
            Piece::Text(b", tick "),
            Piece::Number(u64::from(span.installed)),
        ],
    )?;
    put_time(into, b", transmits from ", span.began)?;
    put_time(into, b", until ", span.relieved)?;
    match span.ended {
        None => put(into, &[Piece::Text(b", still held</title>")]),
        Some(end) => put(
            into,
            &[
                Piece::Text(b" to "),
                Piece::Number(u64::from(end.at)),
                Piece::Text(b", "),
                Piece::Text(word(end.why)),
                Piece::Text(b"</title>"),
            ],
        ),
    }
}

/// Appends a time behind words, if there is one.
fn put_time(into: &mut Vec<u8>, words: &[u8], at: Option<u32>) -> Result<(), AllocError> {
    match at {
        None => Ok(()),
        Some(at) => put(into, &[Piece::Text(words), Piece::Number(u64::from(at))]),
    }
}

/// The word of why a key ended.
fn word(why: Why) -> &'static [u8] {
    match why {
        Why::Replaced => b"replaced",
        Why::Retired => b"retired",
        Why::Dropped => b"dropped",
        Why::Restarted => b"restarted",
        Why::Left => b"left the group",
    }
}
