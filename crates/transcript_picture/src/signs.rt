//! The legend of signs: each as it is drawn, and what it says.

use crate::ends::{DROPPED, HELD, LEFT, REPLACED, RESTARTED, RETIRED};
use sheets::{Piece, put};
use std::alloc::AllocError;

/// How much room a sign has, in units.
const ROOM: u64 = 97;

/// The signs of ends, and their words.
const ENDS: [(&[u8], &[u8]); 6] = [
    (RETIRED, b"retired"),
    (DROPPED, b"dropped"),
    (REPLACED, b"replaced"),
    (RESTARTED, b"restarted"),
    (LEFT, b"left the group"),
    (HELD, b"still held"),
];

/// The shapes of other signs, and their words.
const SHAPES: [(&[u8], &[u8]); 6] = [
    (
        b"rect class=\"thin k1\" y=\"-2\" width=\"20\" height=\"4\"",
        b"received",
    ),
    (
        b"rect class=\"thick k1\" y=\"-4\" width=\"20\" height=\"8\"",
        b"transmits",
    ),
    (b"path class=\"ink\" d=\"M10 3l-3.5 -6h7z\"", b"life begins"),
    (
        b"rect class=\"ink\" y=\"-2\" width=\"20\" height=\"5\"",
        b"serves",
    ),
    (b"path class=\"k1\" d=\"M0 4v-4h7v-3h7v2h6v5z\"", b"sent"),
    (
        b"rect class=\"refused\" x=\"6\" y=\"-4\" width=\"7\" height=\"7\"",
        b"refused",
    ),
];

/// Appends the signs in one line, whose middle is so far down.
pub fn put_signs(into: &mut Vec<u8>, middle: u64) -> Result<(), AllocError> {
    let mut x = 8u64;
    for (shape, word) in SHAPES {
        put_place(into, x, middle)?;
        put(into, &[Piece::Text(b"<"), Piece::Text(shape)])?;
        put_word(into, word)?;
        x = x.saturating_add(ROOM);
    }
    for (shape, word) in ENDS {
        put_place(into, x, middle)?;
        put(
            into,
            &[
                Piece::Text(b"<path class=\"mark\" d=\"M12 0"),
                Piece::Text(shape),
                Piece::Text(b"\""),
            ],
        )?;
        put_word(into, word)?;
        x = x.saturating_add(ROOM);
    }
    Ok(())
}

/// Appends what begins a sign: where it stands.
fn put_place(into: &mut Vec<u8>, x: u64, y: u64) -> Result<(), AllocError> {
    put(
        into,
        &[
            Piece::Text(b"<g transform=\"translate("),
            Piece::Number(x),
            Piece::Text(b" "),
            Piece::Number(y),
            Piece::Text(b")\">"),
        ],
    )
}

/// Appends what ends a sign: its word.
fn put_word(into: &mut Vec<u8>, word: &[u8]) -> Result<(), AllocError> {
    put(
        into,
        &[
            Piece::Text(b"/><text x=\"25\" y=\"4\">"),
            Piece::Text(word),
            Piece::Text(b"</text></g>\n"),
        ],
    )
}
