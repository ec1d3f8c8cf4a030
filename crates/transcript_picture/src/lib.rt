//! From a transcript to the picture of its keys, a text in SVG that stands alone: lines are read as
//! they come, and nothing is told before the end.
#![tactic(auto)]

mod axis;
mod bars;
mod beside;
mod births;
mod columns;
mod counts;
mod drawing;
mod ends;
mod history;
mod judged;
mod keys;
mod kind;
mod labels;
mod lanes;
mod laws;
mod layout;
mod legend;
mod piles;
mod reigns;
mod scale;
mod scene;
mod sent;
mod sheet;
mod signs;
mod sketch;
mod style;

pub use drawing::draw;
pub use laws::law_drawing_refuses_as_judging_does;
pub use scene::Scene;
