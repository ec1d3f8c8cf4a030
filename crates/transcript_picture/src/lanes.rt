//! The lane of one station: its name, its keys, its lives, what it sent, and what arrived.

use crate::bars::put_rows;
use crate::births::put_births;
use crate::counts::put_counts;
use crate::keys::Names;
use crate::labels::Label;
use crate::layout::{HEAD, Layout, STRIP};
use crate::scale::Scale;
use crate::scene::Scene;
use crate::sent::put_sent;
use sheets::{Piece, put};
use std::alloc::AllocError;

/// Appends the lane of each station, the first of which is so far down.
pub fn put_lanes(
    into: &mut Vec<u8>,
    scene: &Scene,
    layout: &Layout,
    names: &Names,
    scale: Scale,
    labels: &[Label],
    first: u32,
) -> Result<(), AllocError> {
    let mut top = first;
    for label in labels {
        put_lane(into, scene, layout, names, scale, label, top)?;
        top = top.saturating_add(layout.lane());
    }
    Ok(())
}

/// Appends the lane of a station, whose top is so far down.
fn put_lane(
    into: &mut Vec<u8>,
    scene: &Scene,
    layout: &Layout,
    names: &Names,
    scale: Scale,
    label: &Label,
    top: u32,
) -> Result<(), AllocError> {
    put_name(into, label, top)?;
    let rows = top.saturating_add(HEAD);
    put_rows(into, scene, layout, names, scale, label.place, rows)?;
    if let Some(history) = scene.history(label.place) {
        let name = label.text.as_slice();
        put_births(into, history.births(), scale, name, top, layout.rows())?;
    }
    let mut foot = rows.saturating_add(layout.rows());
    if layout.sends {
        foot = foot.saturating_add(STRIP);
        put_sent(into, scene, names, scale, label.place, foot)?;
    }
    put_counts(into, scene.columns(), layout, scale, label.place, foot)
}

/// Appends the name of a lane, over a line that parts it from the one above.
fn put_name(into: &mut Vec<u8>, label: &Label, top: u32) -> Result<(), AllocError> {
    let top = u64::from(top);
    put(
        into,
        &[
            Piece::Text(b"<path class=\"part\" d=\"M8 "),
            Piece::Number(top.saturating_sub(2)),
            Piece::Text(b"H1192\"/><text class=\"name\" x=\"8\" y=\""),
            Piece::Number(top.saturating_add(16)),
            Piece::Text(b"\">"),
            Piece::Escaped(label.text.as_slice()),
            Piece::Text(b"</text>\n"),
        ],
    )
}
