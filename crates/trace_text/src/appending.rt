//! Words are appended to a text.

ghost use Rattle.std.specs.Prelude.{◌≡◌, ◌++◌, OnOk, OnErr, map};
ghost use Rattle.hex.specs.Hex.{encode_lower};
ghost use Rattle.trace_text.specs.Words.{spaced};
ghost use Rattle.trace_text.specs.Appending.{Grew, word_text};

use crate::hexadecimal::encode;
use itoa::Buffer;
use lan_base::Name;
use std::alloc::AllocError;

/// A word behind a line's first.
#[derive(Clone, Copy)]
pub enum Word<'a> {
    /// Letters as they stand.
    Text(&'a [u8]),
    /// A station's name.
    Name(&'a Name),
    /// A number, in decimal.
    Number(u64),
    /// Octets, in hexadecimal.
    Octets(&'a [u8]),
}

/// Appends each word behind a space. An `Err` leaves what was there, and may leave a front of the
/// words behind it.
pub fn put_words(into: &mut Vec<u8>, words: &[Word]) -> Result<(), AllocError>
    ensures ok { OnOk result (into.new.items
        ≡ into.old.items ++ spaced (map word_text words.now)) }
    ensures err { OnErr result (Grew into.old.items into.new.items) }
{
    for word in words {
        into.push(b' ')?;
        put_word(into, word)?;
    }
    Ok(())
}

/// Appends a word. An `Err` leaves what was there.
fn put_word(into: &mut Vec<u8>, word: &Word) -> Result<(), AllocError>
    ensures ok { OnOk result (into.new.items ≡ into.old.items ++ word_text word.now) }
    ensures err { OnErr result (into.new.items ≡ into.old.items) }
{
    match word {
        Word::Text(letters) => into.extend_from_slice(letters),
        Word::Name(name) => into.extend_from_slice(name.octets()),
        Word::Number(number) => {
            let mut buffer = Buffer::new();
            into.extend_from_slice(buffer.format(*number).as_bytes())
        }
        Word::Octets(octets) => put_octets(into, octets),
    }
}

/// How many octets are appended at a time: their digits are still near when they are written over
/// the room that is cleared for them.
const PIECE: usize = 512;

/// Appends octets in hexadecimal, in lower case. An `Err` leaves what was there.
fn put_octets(into: &mut Vec<u8>, octets: &[u8]) -> Result<(), AllocError>
    ensures ok { OnOk result (into.new.items ≡ into.old.items ++ encode_lower octets.now) }
    ensures err { OnErr result (into.new.items ≡ into.old.items) }
{
    let start = into.len();
    let result = put_pieces(into, octets);
    if result.is_err() {
        into.truncate(start);
    }
    result
}

/// Appends octets in hexadecimal. An `Err` leaves what was there, and may leave digits behind it.
fn put_pieces(into: &mut Vec<u8>, octets: &[u8]) -> Result<(), AllocError>
    ensures ok { OnOk result (into.new.items ≡ into.old.items ++ encode_lower octets.now) }
    ensures err { OnErr result (Grew into.old.items into.new.items) }
{
    into.reserve(2 * octets.len())?;
    let mut left = octets;
    while !left.is_empty() {
        let (piece, rest) = left.split_at(left.len().min(PIECE));
        put_piece(into, piece)?;
        left = rest;
    }
    Ok(())
}

/// Appends octets in hexadecimal. An `Err` leaves what was there.
fn put_piece(into: &mut Vec<u8>, octets: &[u8]) -> Result<(), AllocError>
    ensures ok { OnOk result (into.new.items ≡ into.old.items ++ encode_lower octets.now) }
    ensures err { OnErr result (into.new.items ≡ into.old.items) }
{
    let start = into.len();
    let digits = 2 * octets.len();
    into.reserve(digits)?;
    into.resize(start + digits, 0)?;
    encode(octets, &mut into[start..]);
    Ok(())
}
