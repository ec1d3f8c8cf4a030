//! What the lanes of the picture are called.

use crate::scene::Scene;
use std::alloc::{AllocError, Global};
use transcript_reader::{FactReader, Form, station_of};

/// How many places there are of stations, of both groups.
pub const PLACES: u8 = 32;

/// The place of a station that has a lane, and what it is called.
#[derive(Drop)]
pub struct Label {
    pub place: u8,
    pub text: Vec<u8>,
}

/// The labels of the stations that began a life, by place: those of the second group stand behind those
/// of the first, and behind the number of its group where there are two.
pub fn labels(alloc: Global, scene: &Scene, reader: &FactReader) -> Result<Vec<Label>, AllocError> {
    let mut labels = Vec::new(alloc);
    for place in 0..PLACES {
        if scene.has_lived(place) {
            let text = label_of(alloc, reader, place)?;
            labels.push(Label { place, text })?;
        }
    }
    Ok(labels)
}

/// What the station of a place is called by these labels.
pub fn text_of(labels: &[Label], place: u8) -> &[u8] {
    for label in labels {
        if label.place == place {
            return label.text.as_slice();
        }
    }
    b""
}

/// What the station of a place is to be called.
fn label_of(alloc: Global, reader: &FactReader, place: u8) -> Result<Vec<u8>, AllocError> {
    let mut text = Vec::new(alloc);
    let station = station_of(place);
    if reader.form() == Some(Form::TwoGroups) {
        text.extend_from_slice(if place == station { b"1 " } else { b"2 " })?;
    }
    if let Some(name) = reader.names().get(usize::from(station)) {
        text.extend_from_slice(name.octets())?;
    }
    Ok(text)
}
