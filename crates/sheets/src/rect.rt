//! Rectangles.

use crate::extent::Stretch;
use crate::pieces::{Piece, put};
use std::alloc::AllocError;

/// Appends a rectangle of this class.
pub fn put_rect(
    into: &mut Vec<u8>,
    class: &[u8],
    across: Stretch,
    top: u64,
    height: u64,
) -> Result<(), AllocError> {
    put_front(into, class, across, top, height)?;
    put(into, &[Piece::Text(b"\"/>")])
}

/// Appends a rectangle of this class up to where its title begins.
pub fn put_titled_rect(
    into: &mut Vec<u8>,
    class: &[u8],
    across: Stretch,
    top: u64,
    height: u64,
) -> Result<(), AllocError> {
    put_front(into, class, across, top, height)?;
    put(into, &[Piece::Text(b"\"><title>")])
}

/// Appends the class and the measures of a rectangle.
fn put_front(
    into: &mut Vec<u8>,
    class: &[u8],
    across: Stretch,
    top: u64,
    height: u64,
) -> Result<(), AllocError> {
    put(
        into,
        &[
            Piece::Text(b"<rect class=\""),
            Piece::Text(class),
            Piece::Text(b"\" x=\""),
            Piece::Tenths(across.x),
            Piece::Text(b"\" y=\""),
            Piece::Number(top),
            Piece::Text(b"\" width=\""),
            Piece::Tenths(across.width),
            Piece::Text(b"\" height=\""),
            Piece::Number(height),
        ],
    )
}
