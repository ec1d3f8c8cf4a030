//! How keys are shown: each in the colour of its identifier, which is one at all stations, and by a name.

use crate::labels::{Label, text_of};
use crate::legend::{Entry, Legend};
use lan_base::KeyId;
use sheets::{Piece, colour, put, put_further};
use std::alloc::{AllocError, Global};

/// How many entries of the legend stand side by side, and how much room each has, in units.
const ABREAST: u64 = 8;

const ROOM: u64 = 147;
/// How high a line of the legend is, in units.
pub const LINE: u64 = 16;

/// The names of the first identifiers, in their order.
#[derive(Drop)]
pub struct Names {
    names: Vec<Vec<u8>>,
}

impl Names {
    /// Those of a legend whose stations are called so.
    pub fn of(alloc: Global, legend: &Legend, labels: &[Label]) -> Result<Names, AllocError> {
        let mut names = Vec::new(alloc);
        for entry in legend.entries() {
            names.push(name_of(alloc, entry, labels)?)?;
        }
        Ok(Names { names })
    }

    /// The name of the identifier of a number.
    fn get(&self, number: Option<u32>) -> Option<&[u8]> {
        let place = number?.saturating_sub(1);
        Some(self.names.get(place as usize)?.as_slice())
    }
}

/// The name of an identifier: that of the station that made its key, behind a slash which life of it where it is not the first,
/// and the number of the key. Where nobody is known who made it, its number alone.
fn name_of(alloc: Global, entry: &Entry, labels: &[Label]) -> Result<Vec<u8>, AllocError> {
    let mut name = Vec::new(alloc);
    if let Some(maker) = entry.maker {
        put(&mut name, &[Piece::Text(text_of(labels, maker.place))])?;
        if maker.life > 1 {
            let life = Piece::Number(u64::from(maker.life));
            put(&mut name, &[Piece::Text(b"/"), life])?;
        }
        put(&mut name, &[Piece::Text(b" ")])?;
    }
    put(&mut name, &[Piece::Number(u64::from(entry.id.number))])?;
    Ok(name)
}

/// The colour of an identifier.
pub fn colour_of(legend: &Legend, id: KeyId) -> u64 {
    colour(legend.number(id).unwrap_or(id.number))
}

/// How many letters the name of an identifier has, if it has one.
pub fn letters(legend: &Legend, names: &Names, id: KeyId) -> Option<u64> {
    let name = names.get(legend.number(id))?;
    Some(name.len() as u64)
}

/// Appends the name of an identifier, or the number of its key where it is none of the first.
pub fn put_name(
    into: &mut Vec<u8>,
    legend: &Legend,
    names: &Names,
    id: KeyId,
) -> Result<(), AllocError> {
    match names.get(legend.number(id)) {
        Some(name) => put(into, &[Piece::Escaped(name)]),
        None => put(into, &[Piece::Number(u64::from(id.number))]),
    }
}

/// How high a legend is, in units.
pub fn height(legend: &Legend) -> u64 {
    let lines = (legend.entries().len() as u64).div_ceil(ABREAST);
    let further = if legend.further() == 0 { 0 } else { LINE };
    lines.saturating_mul(LINE).saturating_add(further)
}

/// Appends a legend, whose top is so far down.
pub fn put_keys(
    into: &mut Vec<u8>,
    legend: &Legend,
    names: &Names,
    top: u64,
) -> Result<(), AllocError> {
    let mut place = 0u64;
    for entry in legend.entries() {
        let x = (place % ABREAST).saturating_mul(ROOM).saturating_add(8);
        let y = (place / ABREAST).saturating_mul(LINE).saturating_add(top);
        put_entry(into, legend, names, entry.id, x, y)?;
        place = place.saturating_add(1);
    }
    if legend.further() == 0 {
        return Ok(());
    }
    let foot = top.saturating_add(height(legend)).saturating_add(25);
    let before = b"and keys of further identifiers, installed ";
    put_further(into, foot, before, legend.further(), b" times")
}

/// Appends what explains one identifier: its box, and its name.
fn put_entry(
    into: &mut Vec<u8>,
    legend: &Legend,
    names: &Names,
    id: KeyId,
    x: u64,
    y: u64,
) -> Result<(), AllocError> {
    put(
        into,
        &[
            Piece::Text(b"<g><title>key "),
            Piece::Number(u64::from(id.number)),
            Piece::Text(b" of "),
            Piece::Hex(&id.server.0),
            Piece::Text(b"</title><rect class=\"thick k"),
            Piece::Number(colour_of(legend, id)),
        ],
    )?;
    put_placed(into, b"\"", x, y, b"\" width=\"22\" height=\"9\"/>")?;
    let (x, y) = (x.saturating_add(28), y.saturating_add(9));
    put_placed(into, b"<text", x, y, b"\">")?;
    put_name(into, legend, names, id)?;
    put(into, &[Piece::Text(b"</text></g>\n")])
}

/// Appends what begins an element, where it stands, and what comes behind.
fn put_placed<'a>(
    into: &mut Vec<u8>,
    begun: &'a [u8],
    x: u64,
    y: u64,
    behind: &'a [u8],
) -> Result<(), AllocError> {
    put(
        into,
        &[
            Piece::Text(begun),
            Piece::Text(b" x=\""),
            Piece::Number(x),
            Piece::Text(b"\" y=\""),
            Piece::Number(y),
            Piece::Text(behind),
        ],
    )
}
