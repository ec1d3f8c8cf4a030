//! The keys, and the colour of each.

use crate::origin::Origin;
use sheets::{ENTRIES_MAX, Piece, colour, entry_at, legend_height, put, put_further};
use std::alloc::AllocError;
use std::collections::BTreeMap;

/// How much room an entry has, in units.
const ROOM: u64 = 290;

/// How high the legend of keys is, in units.
pub fn height(keys: &BTreeMap<u32, Origin>) -> u64 {
    legend_height((keys.len() as u64).min(ENTRIES_MAX))
}

/// Appends the legend of keys, whose top is so far down.
pub fn put_legend(
    into: &mut Vec<u8>,
    keys: &BTreeMap<u32, Origin>,
    top: u64,
) -> Result<(), AllocError> {
    let mut place = 0u64;
    for (key, origin) in keys {
        if place < ENTRIES_MAX {
            let (x, y) = entry_at(place, ROOM, top);
            put_entry(into, *key, origin, x, y)?;
        }
        place = place.saturating_add(1);
    }
    if place <= ENTRIES_MAX {
        return Ok(());
    }
    let foot = top.saturating_add(height(keys));
    put_further(
        into,
        foot,
        b"and further keys: ",
        place.saturating_sub(ENTRIES_MAX),
        b"",
    )
}

/// Appends what explains one key.
fn put_entry(
    into: &mut Vec<u8>,
    key: u32,
    origin: &Origin,
    x: u64,
    y: u64,
) -> Result<(), AllocError> {
    put(
        into,
        &[
            Piece::Text(b"<rect class=\"bar k"),
            Piece::Number(colour(key)),
            Piece::Text(b"\" x=\""),
            Piece::Number(x),
            Piece::Text(b"\" y=\""),
            Piece::Number(y),
            Piece::Text(b"\" width=\"22\" height=\"10\"/><text class=\"small\" x=\""),
            Piece::Number(x.saturating_add(28)),
            Piece::Text(b"\" y=\""),
            Piece::Number(y.saturating_add(9)),
            Piece::Text(b"\">"),
        ],
    )?;
    put_key(into, key, origin)?;
    put(into, &[Piece::Text(b"</text>\n")])
}

/// Appends a key: its number, under which identifier it was given first or which line sets it, and the
/// association number.
pub fn put_key(into: &mut Vec<u8>, key: u32, origin: &Origin) -> Result<(), AllocError> {
    put(into, &[Piece::Text(b"key "), Piece::Number(u64::from(key))])?;
    match origin {
        Origin::Hand(hand) => put(
            into,
            &[
                Piece::Text(b", set by line "),
                Piece::Number(u64::from(hand.line)),
            ],
        )?,
        Origin::Given(giving) => put(
            into,
            &[
                Piece::Text(b", ki "),
                Piece::Hex(&giving.id.server.0),
                Piece::Text(b" "),
                Piece::Number(u64::from(giving.id.number)),
            ],
        )?,
    }
    put(
        into,
        &[
            Piece::Text(b", an "),
            Piece::Number(u64::from(origin.an().number())),
        ],
    )
}
