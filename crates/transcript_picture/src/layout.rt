//! What the lanes of the picture show: rows and strips of which every lane would be empty are left out.

use crate::kind::Kind;
use crate::labels::Label;
use crate::scene::Scene;
use lan_base::AssociationNumber;
use std::alloc::{AllocError, Global};

/// How high a row of keys is, in units.
pub const ROW: u32 = 14;
/// How high a strip of counts is, in units.
pub const STRIP: u32 = 10;
/// How much of a lane lies above its rows, in units: there lives begin.
pub const HEAD: u32 = 7;
/// How much lies below its strips, in units.
const FOOT: u32 = 4;

/// The rows and strips of a lane.
#[derive(Drop)]
pub struct Layout {
    /// The numbers under which a station held a key.
    pub numbers: Vec<AssociationNumber>,
    /// Whether a station sent, or was refused to.
    pub sends: bool,
    /// The kinds of what arrived somewhere.
    pub kinds: Vec<Kind>,
}

impl Layout {
    /// That of a scene whose stations are these.
    pub fn of(alloc: Global, scene: &Scene, labels: &[Label]) -> Result<Layout, AllocError> {
        let mut numbers = Vec::new(alloc);
        for number in AssociationNumber::ALL {
            if is_held(scene, labels, number) {
                numbers.push(number)?;
            }
        }
        let mut kinds = Vec::new(alloc);
        for kind in Kind::ALL {
            if kind.of(&scene.columns().all()) > 0 {
                kinds.push(kind)?;
            }
        }
        Ok(Layout {
            numbers,
            sends: has_sent(scene, labels),
            kinds,
        })
    }

    /// How high the rows of a lane are, in units.
    pub fn rows(&self) -> u32 {
        height_of(self.numbers.len(), ROW)
    }

    /// How high a lane is, in units: there is room for its name.
    pub fn lane(&self) -> u32 {
        let strips = self.kinds.len().saturating_add(usize::from(self.sends));
        let below = height_of(strips, STRIP).saturating_add(HEAD + FOOT);
        self.rows().saturating_add(below).max(26)
    }
}

/// How high so many are together.
fn height_of(count: usize, each: u32) -> u32 {
    let count = u32::try_from(count).unwrap_or(u32::MAX);
    count.saturating_mul(each)
}

/// Whether a station held a key under this number.
fn is_held(scene: &Scene, labels: &[Label], number: AssociationNumber) -> bool {
    for label in labels {
        if let Some(row) = scene.spans().row(label.place, number) {
            if row.latest().is_some() {
                return true;
            }
        }
    }
    false
}

/// Whether a station sent, or was refused to.
fn has_sent(scene: &Scene, labels: &[Label]) -> bool {
    for label in labels {
        if is_sender(scene, label.place) {
            return true;
        }
    }
    false
}

/// Whether this station sent, or was refused to.
fn is_sender(scene: &Scene, station: u8) -> bool {
    for number in AssociationNumber::ALL {
        if let Some(row) = scene.sends().claims(station, number) {
            if row.latest().is_some() {
                return true;
            }
        }
    }
    match scene.sends().refusals(station) {
        Some(row) => row.latest().is_some(),
        None => false,
    }
}
