//! The picture as a whole.

use crate::axis::put_axis;
use crate::judged::put_judged;
use crate::keys::{LINE, Names, height, put_keys};
use crate::labels::{Label, labels};
use crate::lanes::put_lanes;
use crate::layout::Layout;
use crate::reigns::{REIGN, put_reigns, served};
use crate::scale::Scale;
use crate::scene::Scene;
use crate::signs::put_signs;
use crate::style::{DARK, LIGHT, SIZE};
use sheets::{Look, Piece, put, put_head};
use std::alloc::{AllocError, Global};
use transcript_reader::FactReader;

/// Where what lies below the seconds begins, in units.
const TOP: u32 = 44;

/// The picture of a scene whose stations a reader names: a text in SVG that stands alone, 1,200 units
/// wide.
pub fn picture(alloc: Global, scene: &Scene, reader: &FactReader) -> Result<Vec<u8>, AllocError> {
    let labels = labels(alloc, scene, reader)?;
    let layout = Layout::of(alloc, scene, labels.as_slice())?;
    draw(alloc, scene, &layout, labels.as_slice())
}

/// The picture of a scene whose stations are called so.
fn draw(
    alloc: Global,
    scene: &Scene,
    layout: &Layout,
    labels: &[Label],
) -> Result<Vec<u8>, AllocError> {
    let mut text = Vec::new(alloc);
    let names = Names::of(alloc, scene.legend(), labels)?;
    let scale = Scale::new(scene.spans().clock());
    let lanes = TOP.saturating_add(served(scene, labels).saturating_mul(REIGN));
    let foot = lanes.saturating_add(height_of(layout, labels));
    let signs = u64::from(foot).saturating_add(10);
    let keys = signs.saturating_add(LINE);
    put_front(&mut text, keys.saturating_add(height(scene.legend())))?;
    put_judged(&mut text, &scene.columns().all(), 16)?;
    put_axis(&mut text, scale, TOP - 8, foot)?;
    put_reigns(&mut text, scene, scale, labels, TOP)?;
    put_lanes(&mut text, scene, layout, &names, scale, labels, lanes)?;
    put_signs(&mut text, signs)?;
    put_keys(&mut text, scene.legend(), &names, keys)?;
    put(&mut text, &[Piece::Text(b"</svg>\n")])?;
    Ok(text)
}

/// How high all lanes are together, in units.
fn height_of(layout: &Layout, labels: &[Label]) -> u32 {
    let count = u32::try_from(labels.len()).unwrap_or(u32::MAX);
    count.saturating_mul(layout.lane())
}

/// Appends the head of a picture that is so high.
fn put_front(into: &mut Vec<u8>, height: u64) -> Result<(), AllocError> {
    let look = Look {
        name: SIZE,
        light: LIGHT,
        dark: DARK,
    };
    put_head(into, height, b"Who held which key", &look)
}
