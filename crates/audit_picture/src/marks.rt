//! The marks of one sender: keys that became known, keys that were reported, and reused packets.

use crate::bars::middle;
use crate::entry::{Known, Reported};
use crate::legend::put_key;
use crate::origin::Origin;
use crate::scale::Scale;
use mark_notes::Reuse;
use sheets::{Piece, colour, put, put_several};
use std::alloc::AllocError;
use tick_columns::{Column, Thinned};

/// Appends a triangle for each column in which a key became known.
pub fn put_known(
    into: &mut Vec<u8>,
    known: &Thinned<Known>,
    scale: Scale,
    top: u64,
) -> Result<(), AllocError> {
    for column in known.earlier() {
        put_one_known(into, column, known.ticks(), scale, top)?;
    }
    match known.latest() {
        Some(column) => put_one_known(into, &column, known.ticks(), scale, top),
        None => Ok(()),
    }
}

/// Appends the triangle of a column's last key.
fn put_one_known(
    into: &mut Vec<u8>,
    column: &Column<Known>,
    packets: u32,
    scale: Scale,
    top: u64,
) -> Result<(), AllocError> {
    let known = column.last;
    put(
        into,
        &[
            Piece::Text(b"<path class=\"mark k"),
            Piece::Number(colour(known.key)),
            Piece::Text(b"\" d=\"M"),
            Piece::Tenths(scale.x(u64::from(known.packet))),
            Piece::Text(b" "),
            Piece::Number(middle(top, known.origin.an())),
            Piece::Text(b"l-5 -7h10z\"><title>"),
        ],
    )?;
    put_several(into, column, packets, b"packets", b"keys")?;
    put_key(into, known.key, &known.origin)?;
    if let Origin::Given(giving) = known.origin {
        put(
            into,
            &[
                Piece::Text(b", given in packet "),
                Piece::Number(u64::from(giving.packet)),
                Piece::Text(b" in group "),
                Piece::Number(u64::from(giving.group)),
            ],
        )?;
    }
    put(into, &[Piece::Text(b"</title></path>\n")])
}

/// Appends a diamond for each column in which a key was reported.
pub fn put_reported(
    into: &mut Vec<u8>,
    reported: &Thinned<Reported>,
    scale: Scale,
    top: u64,
) -> Result<(), AllocError> {
    for column in reported.earlier() {
        put_one_reported(into, column, reported.ticks(), scale, top)?;
    }
    match reported.latest() {
        Some(column) => put_one_reported(into, &column, reported.ticks(), scale, top),
        None => Ok(()),
    }
}

/// Appends the diamond of a column's last report.
fn put_one_reported(
    into: &mut Vec<u8>,
    column: &Column<Reported>,
    packets: u32,
    scale: Scale,
    top: u64,
) -> Result<(), AllocError> {
    let report = column.last.report;
    put(
        into,
        &[
            Piece::Text(b"<path class=\"report\" d=\"M"),
            Piece::Tenths(scale.x(u64::from(report.packet))),
            Piece::Text(b" "),
            Piece::Number(middle(top, column.last.origin.an()).saturating_sub(5)),
            Piece::Text(b"l5 5l-5 5l-5 -5z\"><title>"),
        ],
    )?;
    put_several(into, column, packets, b"packets", b"reports")?;
    put(
        into,
        &[
            Piece::Text(b"key "),
            Piece::Number(u64::from(report.key)),
            Piece::Text(b" reported in packet "),
            Piece::Number(u64::from(report.packet)),
            Piece::Text(b" by member "),
            Piece::Number(u64::from(report.group)),
            Piece::Text(b" "),
            Piece::Hex(&report.mi.0),
            Piece::Text(b"</title></path>\n"),
        ],
    )
}

/// Appends a red cross for each column in which packets were reused, at this height.
pub fn put_reused(
    into: &mut Vec<u8>,
    reused: &Thinned<Reuse>,
    scale: Scale,
    y: u64,
) -> Result<(), AllocError> {
    for column in reused.earlier() {
        put_one_reused(into, column, reused.ticks(), scale, y)?;
    }
    match reused.latest() {
        Some(column) => put_one_reused(into, &column, reused.ticks(), scale, y),
        None => Ok(()),
    }
}

/// Appends the red cross of a column's last reused packet.
fn put_one_reused(
    into: &mut Vec<u8>,
    column: &Column<Reuse>,
    packets: u32,
    scale: Scale,
    y: u64,
) -> Result<(), AllocError> {
    let reuse = column.last;
    put(
        into,
        &[
            Piece::Text(b"<path class=\"reuse\" d=\"M"),
            Piece::Tenths(scale.x(u64::from(reuse.packet))),
            Piece::Text(b" "),
            Piece::Number(y),
            Piece::Text(b"m-4 -4l8 8m0 -8l-8 8\"><title>"),
        ],
    )?;
    put_several(into, column, packets, b"packets", b"reused packets")?;
    put(
        into,
        &[
            Piece::Text(b"packet "),
            Piece::Number(u64::from(reuse.packet)),
            Piece::Text(b" uses pn "),
            Piece::Number(u64::from(reuse.pn)),
            Piece::Text(b" of key "),
            Piece::Number(u64::from(reuse.key)),
            Piece::Text(b" again, first in packet "),
            Piece::Number(u64::from(reuse.first)),
            Piece::Text(b"</title></path>\n"),
        ],
    )
}
