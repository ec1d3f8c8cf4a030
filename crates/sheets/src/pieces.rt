//! Text that is put together piece by piece.

ghost use Rattle.std.specs.Prelude.{◌≡◌, ◌++◌, OnOk, decimal};
ghost use Rattle.hex.specs.Hex.{encode_lower};
ghost use Rattle.sheets.specs.declared.pieces.Piece.TheVariants.{Tenths};
ghost use Rattle.sheets.specs.Pieces.{escaped, escaped_one, piece_text, pieces_text};

use itoa::Buffer;
use std::alloc::AllocError;

/// A piece of a text.
#[derive(Clone, Copy)]
pub enum Piece<'a> {
    /// Octets as they stand.
    Text(&'a [u8]),
    /// Octets of a name, in which what means something in XML is escaped.
    Escaped(&'a [u8]),
    /// A number.
    Number(u64),
    /// Tenths of a unit: a number, a point, and one digit.
    Tenths(u64),
    /// Octets as pairs of digits.
    Hex(&'a [u8]),
}

/// Appends pieces.
pub fn put(into: &mut Vec<u8>, pieces: &[Piece]) -> Result<(), AllocError>
    ensures { OnOk result (into.new.items ≡ into.old.items ++ pieces_text pieces.now) }
{
    for piece in pieces {
        put_piece(into, piece)?;
    }
    Ok(())
}

/// Appends a piece.
fn put_piece(into: &mut Vec<u8>, piece: &Piece) -> Result<(), AllocError>
    ensures { OnOk result (into.new.items ≡ into.old.items ++ piece_text piece.now) }
{
    match piece {
        Piece::Text(text) => into.extend_from_slice(text),
        Piece::Escaped(name) => put_escaped(into, name),
        Piece::Number(number) => put_number(into, *number),
        Piece::Tenths(tenths) => put_tenths(into, *tenths),
        Piece::Hex(octets) => put_hex(into, octets),
    }
}

/// Appends a number.
fn put_number(into: &mut Vec<u8>, number: u64) -> Result<(), AllocError>
    ensures { OnOk result (into.new.items ≡ into.old.items ++ decimal number) }
{
    let mut buffer = Buffer::new();
    into.extend_from_slice(buffer.format(number).as_bytes())
}

/// Appends tenths: the whole part, a point, and a digit.
fn put_tenths(into: &mut Vec<u8>, tenths: u64) -> Result<(), AllocError>
    ensures { OnOk result (into.new.items ≡ into.old.items ++ piece_text (Tenths tenths)) }
{
    put_number(into, tenths / 10)?;
    into.push(b'.')?;
    put_number(into, tenths % 10)
}

/// Appends octets as pairs of digits.
fn put_hex(into: &mut Vec<u8>, octets: &[u8]) -> Result<(), AllocError>
    ensures { OnOk result (into.new.items ≡ into.old.items ++ encode_lower octets.now) }
{
    let alloc = *into.allocator();
    let digits = hex::encode(alloc, octets)?;
    into.extend_from_slice(digits.as_bytes())
}

/// Appends a name: each octet that means something in XML as the name of its character.
fn put_escaped(into: &mut Vec<u8>, name: &[u8]) -> Result<(), AllocError>
    ensures { OnOk result (into.new.items ≡ into.old.items ++ escaped name.now) }
{
    for octet in name {
        put_octet(into, *octet)?;
    }
    Ok(())
}

/// Appends an octet of a name.
fn put_octet(into: &mut Vec<u8>, octet: u8) -> Result<(), AllocError>
    ensures { OnOk result (into.new.items ≡ into.old.items ++ escaped_one octet) }
{
    match octet {
        b'&' => into.extend_from_slice(b"&amp;"),
        b'<' => into.extend_from_slice(b"&lt;"),
        b'>' => into.extend_from_slice(b"&gt;"),
        b'"' => into.extend_from_slice(b"&quot;"),
        b'\'' => into.extend_from_slice(b"&apos;"),
        _ => into.extend_from_slice(&[octet]),
    }
}
