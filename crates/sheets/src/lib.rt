//! Sheets: pictures in SVG that stand alone, put together piece by piece, and what all of them have: a
//! head with a style, lines of an axis, rectangles, and the entries of a legend.
#![tactic(auto)]

mod extent;
mod grid;
mod head;
mod legend;
mod pieces;
mod rect;
mod several;
mod style;

pub use extent::{Extent, Stretch};
pub use grid::{LINES, put_line, step_of};
pub use head::put_head;
pub use legend::{ENTRIES_MAX, colour, entry_at, legend_height, put_further};
pub use pieces::{Piece, put};
pub use rect::{put_rect, put_titled_rect};
pub use several::put_several;
pub use style::Look;
