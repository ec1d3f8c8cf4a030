//! The head of a picture.

use crate::pieces::{Piece, put};
use crate::style::{Look, put_style};
use std::alloc::AllocError;

/// The width of a picture, in units.
const WIDTH: u64 = 1_200;

/// Appends the head of a picture that is so high: its measures, its title, its style, and its paper.
pub fn put_head(
    into: &mut Vec<u8>,
    height: u64,
    title: &[u8],
    look: &Look,
) -> Result<(), AllocError> {
    put_measures(into, height)?;
    put(
        into,
        &[
            Piece::Text(b"\">\n<title>"),
            Piece::Text(title),
            Piece::Text(b"</title>\n"),
        ],
    )?;
    put_style(into, look)?;
    put(
        into,
        &[Piece::Text(b"<rect class=\"paper\" width=\"100%\" height=\"100%\"/>\n")],
    )
}

/// Appends how wide and how high a picture is.
fn put_measures(into: &mut Vec<u8>, height: u64) -> Result<(), AllocError> {
    put(
        into,
        &[
            Piece::Text(b"<svg xmlns=\"http://www.w3.org/2000/svg\" width=\""),
            Piece::Number(WIDTH),
            Piece::Text(b"\" height=\""),
            Piece::Number(height),
            Piece::Text(b"\" viewBox=\"0 0 "),
            Piece::Number(WIDTH),
            Piece::Text(b" "),
            Piece::Number(height),
        ],
    )
}
