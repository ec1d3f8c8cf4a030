//! How the shapes of a picture look, on a light page and on a dark one.

use crate::pieces::{Piece, put};
use std::alloc::AllocError;

/// What a picture says of its own shapes.
#[derive(Clone, Copy)]
pub struct Look<'a> {
    /// How large the name of a lane is, in units.
    pub name: u64,
    /// How its shapes look.
    pub light: &'a [u8],
    /// What is other on a dark page.
    pub dark: &'a [u8],
}

/// What is said before the size of a name.
const FRONT: &[u8] = b"<style>\n\
text{font:11px sans-serif;fill:#222}.name{font-weight:bold;font-size:";

/// What is said behind it of the shapes of all pictures.
const SHAPES: &[u8] = b"px}.small{font-size:9px}\n\
.label{font-size:9px;font-weight:bold;fill:#fff}.paper{fill:#fff}.grid{stroke:#ddd}.row{stroke:#ccc}\n";

/// Eight colours, which stand for keys in turn, with what is written on them, and what is other of all pictures on a dark page:
/// eight others of about the same hues. `tools/colours` says how far apart they are for whom.
const COLOURS: &[u8] = b"\
.k0{fill:#5a2d5a}.k1{fill:#694bc3}.k2{fill:#969600}.k3{fill:#0fa596}.k4{fill:#a50f0f}.k5{fill:#a578ff}.k6{fill:#4b785a}\n\
.k7{fill:#ff3c87}.k2 .label,.k3 .label,.k5 .label,.k7 .label{fill:#000}\n\
@media (prefers-color-scheme:dark){text{fill:#e8e8e8}.paper{fill:#16181c}.grid{stroke:#333}.row{stroke:#444}\n\
.k0{fill:#964b87}.k1{fill:#0069ff}.k2{fill:#b4b400}.k3{fill:#00ffa5}.k4{fill:#d20000}.k5{fill:#f0b4ff}.k6{fill:#4bb4a5}\n\
.k7{fill:#e15a78}.label{fill:#fff}.k6 .label{fill:#000}\n";

/// Appends the style sheet of a picture.
pub fn put_style(into: &mut Vec<u8>, look: &Look) -> Result<(), AllocError> {
    put(
        into,
        &[
            Piece::Text(FRONT),
            Piece::Number(look.name),
            Piece::Text(SHAPES),
            Piece::Text(look.light),
            Piece::Text(COLOURS),
            Piece::Text(look.dark),
            Piece::Text(b"}\n</style>\n"),
        ],
    )
}
