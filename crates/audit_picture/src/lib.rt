//! The picture of a capture that was judged, a text in SVG that stands alone: a lane a sender, its keys,
//! when each was given, reported, and used first and last, and which packets used a number again.
#![tactic(auto)]

mod axis;
mod bars;
mod entry;
mod lane;
mod lanes;
mod legend;
mod marks;
mod origin;
mod scale;
mod sheet;
mod shows;
mod style;

pub use sheet::picture;
