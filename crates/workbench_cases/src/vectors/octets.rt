//! The octets that words spell.

ghost use Rattle.std.specs.Prelude.{◌≤◌, length, IfOk};
ghost use Rattle.lan_base.specs.Ranges.{most_frame_octets};

use crate::vectors::fault::VectorFault;
use aes_block::{Key, Secret};
use lan_base::FRAME_MAX;
use std::alloc::Global;

/// The octets of a word, as many as a frame has at most: its pieces, one after the other.
pub fn octets_of(alloc: Global, word: &str) -> Result<Vec<u8>, VectorFault>
    ensures { IfOk result (λ octets. length octets.items ≤ most_frame_octets) }
{
    let mut octets = Vec::new(alloc);
    if word != "-" {
        for piece in word.split('+') {
            put_piece(alloc, piece, &mut octets)?;
        }
    }
    if octets.len() > FRAME_MAX {
        return Err(VectorFault::Long);
    }
    Ok(octets)
}

/// Appends a piece: digits, or digits, an asterisk and how often they are repeated.
fn put_piece(alloc: Global, piece: &str, into: &mut Vec<u8>) -> Result<(), VectorFault> {
    let (digits, count) = match piece.split_once('*') {
        Some((digits, count)) => (digits, repetitions(count)?),
        None => (piece, 1),
    };
    let octets = hex::decode(alloc, digits)?;
    if octets.len().saturating_mul(usize::from(count)) > FRAME_MAX {
        return Err(VectorFault::Long);
    }
    for _ in 0..count {
        into.extend_from_slice(&octets)?;
    }
    Ok(())
}

/// How often a piece is repeated.
fn repetitions(count: &str) -> Result<u16, VectorFault> {
    count.parse().map_err(|_| VectorFault::Number)
}

/// The octets of a word that has this length.
pub fn array_of<const N: usize>(alloc: Global, word: &str) -> Result<[u8; N], VectorFault> {
    let octets = octets_of(alloc, word)?;
    <[u8; N]>::try_from(octets.as_slice()).map_err(|_| VectorFault::Length(N))
}

/// The octets of a key of 128 or 256 bits.
pub fn secret_of(alloc: Global, word: &str) -> Result<Secret, VectorFault> {
    let octets = octets_of(alloc, word)?;
    if let Ok(short) = <[u8; 16]>::try_from(octets.as_slice()) {
        return Ok(Secret::S128(short));
    }
    match <[u8; 32]>::try_from(octets.as_slice()) {
        Ok(long) => Ok(Secret::S256(long)),
        Err(_) => Err(VectorFault::Key),
    }
}

/// A key of 128 or 256 bits.
pub fn key_of(alloc: Global, word: &str) -> Result<Key, VectorFault> {
    Ok(Key::of(&secret_of(alloc, word)?))
}
