//! What one station sent, column by column: claims by their keys, and refused sends.

use crate::counts::{put_sum, put_word};
use crate::keys::{Names, colour_of, put_name};
use crate::piles::{Pile, Piles};
use crate::scale::Scale;
use crate::scene::Scene;
use key_spans::{Span, Spans};
use lan_base::KeyId;
use sheets::{Piece, put};
use std::alloc::AllocError;
use tick_columns::Thinned;

/// How high the highest column is, and how high a pile is at least, in tenths of a unit.
const HIGHEST: u64 = 80;

const LOWEST: u64 = 15;

/// The strip of a station: where ticks lie, how wide its columns are, how many the fullest one has, and its foot.
#[derive(Clone, Copy)]
struct Strip {
    scale: Scale,
    ticks: u32,
    most: u64,
    foot: u32,
}

/// Appends the strip of a station, which stands on this line: its word, the piles of each column one on another, and how many
/// sends there were.
pub fn put_sent(
    into: &mut Vec<u8>,
    scene: &Scene,
    names: &Names,
    scale: Scale,
    station: u8,
    foot: u32,
) -> Result<(), AllocError> {
    put_word(into, b"sent", foot)?;
    let least = scene.columns().ticks();
    let piles = Piles::of(*into.allocator(), scene.sends(), station, least)?;
    let strip = Strip {
        scale,
        ticks: piles.ticks(),
        most: piles.most(),
        foot,
    };
    let mut column = 0u32;
    let mut height = 0u64;
    for (at, pile) in piles.all() {
        if at.0 != column {
            column = at.0;
            height = 0;
        }
        let id = key_of(scene.spans(), station, pile);
        put_class(into, scene, pile, id)?;
        let more = put_pile(into, pile, column, height, strip)?;
        put_under(into, scene, names, pile, id)?;
        put_ticks(into, column, strip)?;
        height = height.saturating_add(more);
    }
    put_sum(into, piles.sum(), foot)
}

/// Appends where a pile of a column lies, which stands so high over the foot, and how many it is of, and answers how high it is.
fn put_pile(
    into: &mut Vec<u8>,
    pile: &Pile,
    column: u32,
    below: u64,
    strip: Strip,
) -> Result<u64, AllocError> {
    let share = pile.count.saturating_mul(HIGHEST).checked_div(strip.most);
    let height = share.unwrap_or(0).max(LOWEST);
    let foot = u64::from(strip.foot).saturating_mul(10);
    let across = strip.scale.stretch(strip.from(column), strip.to(column));
    put(
        into,
        &[
            Piece::Text(b"\" x=\""),
            Piece::Tenths(across.x),
            Piece::Text(b"\" y=\""),
            Piece::Tenths(foot.saturating_sub(below.saturating_add(height))),
            Piece::Text(b"\" width=\""),
            Piece::Tenths(across.width),
            Piece::Text(b"\" height=\""),
            Piece::Tenths(height),
            Piece::Text(b"\"><title>"),
            Piece::Number(pile.count),
        ],
    )?;
    Ok(height)
}

impl Strip {
    /// The first tick of a column.
    fn from(self, column: u32) -> u64 {
        u64::from(column).saturating_mul(u64::from(self.ticks))
    }

    /// The first one behind it.
    fn to(self, column: u32) -> u64 {
        self.from(column).saturating_add(u64::from(self.ticks))
    }
}

/// The key of a pile of claims, where its install is among those that are shown.
fn key_of(spans: &Spans, station: u8, pile: &Pile) -> Option<KeyId> {
    let number = pile.number?;
    let row = spans.row(station, number)?;
    key_in(row, pile.epoch)
}

/// The key of an epoch in a row.
fn key_in(row: &Thinned<Span>, epoch: u32) -> Option<KeyId> {
    for column in row.earlier() {
        if column.last.epoch == epoch {
            return Some(column.last.id);
        }
    }
    match row.latest() {
        Some(column) if column.last.epoch == epoch => Some(column.last.id),
        _ => None,
    }
}

/// Appends what begins the bar of a pile: its colour.
fn put_class(
    into: &mut Vec<u8>,
    scene: &Scene,
    pile: &Pile,
    id: Option<KeyId>,
) -> Result<(), AllocError> {
    if let Some(id) = id {
        let colour = Piece::Number(colour_of(scene.legend(), id));
        return put(into, &[Piece::Text(b"<rect class=\"k"), colour]);
    }
    let class: &[u8] = match pile.number {
        Some(_) => b"<rect class=\"ink",
        None => b"<rect class=\"refused",
    };
    put(into, &[Piece::Text(class)])
}

/// Appends what a pile is of: claims under a key, or refused sends.
fn put_under(
    into: &mut Vec<u8>,
    scene: &Scene,
    names: &Names,
    pile: &Pile,
    id: Option<KeyId>,
) -> Result<(), AllocError> {
    let Some(number) = pile.number else {
        return put(into, &[Piece::Text(b" refused")]);
    };
    put(
        into,
        &[
            Piece::Text(b" sent under an "),
            Piece::Number(u64::from(number.number())),
            Piece::Text(b", epoch "),
            Piece::Number(u64::from(pile.epoch)),
        ],
    )?;
    let Some(id) = id else {
        return Ok(());
    };
    put(into, &[Piece::Text(b", key ")])?;
    put_name(into, scene.legend(), names, id)
}

/// Appends the ticks of a column, and what ends the bar of its pile.
fn put_ticks(into: &mut Vec<u8>, column: u32, strip: Strip) -> Result<(), AllocError> {
    put(
        into,
        &[
            Piece::Text(b", ticks "),
            Piece::Number(strip.from(column)),
            Piece::Text(b" to "),
            Piece::Number(strip.to(column).saturating_sub(1)),
            Piece::Text(b"</title></rect>"),
        ],
    )
}
