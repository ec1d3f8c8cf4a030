//! What one word says.

ghost use Rattle.std.specs.Prelude.{◌≡◌, ◌≤◌, ◌/◌, ◌&&◌, Ok, Err, Some, None, IsOk, IfOk, IsTrue, is_ok, length, if◌then◌else◌};
ghost use Rattle.std.specs.List.{list_all};
ghost use Rattle.std.specs.Char.{is_ascii_digit};
ghost use Rattle.std.specs.Str.Parse.{digits_value};
ghost use Rattle.hex.specs.Hex.{decode_of};
ghost use Rattle.trace_text.specs.Kinds.{said, name, is_number, number_of, suite_in, octets_of, exactly_of, is_within, is_either};
ghost use Rattle.trace_text.specs.declared.fault.TextFault.TheVariants.{Hex};
ghost use Rattle.trace_text.specs.Answering.{Answers, checked};

use crate::fault::{LineError, TextFault};
use crate::hexadecimal::{decode, spells_octets};
use crate::limits::MAX_DIGITS;
use hex::FromHex;
use lan_base::{Name, Octets, Suite};
use std::alloc::{AllocError, Global};
use std::str;

/// The station's name that a word is.
pub fn read_name(word: &[u8]) -> Result<Name, TextFault>
    ensures { result ≡ said name word.now }
{
    Name::of(word).ok_or(TextFault::Range)
}

/// The number within bounds that a word spells.
pub fn read_number(word: &[u8], low: u32, high: u32) -> Result<u32, TextFault>
    ensures { result ≡ number_of (is_within low high) word.now }
{
    match decimal(word) {
        Some(value) if u64::from(low) <= value && value <= u64::from(high) => Ok(value as u32),
        _ => Err(TextFault::Range),
    }
}

/// The suite whose keys have as many bits as a word spells.
pub fn read_suite(word: &[u8]) -> Result<Suite, TextFault>
    ensures { result ≡ suite_in word.now }
{
    let bits = read_number(word, 0, u32::MAX)?;
    Suite::of(bits).ok_or(TextFault::Range)
}

/// The number that a word of 1 to 10 decimal digits spells.
fn decimal(word: &[u8]) -> Option<u64>
    ensures { result ≡ (if is_number word.now then Some (digits_value 10 word.now) else None) }
{
    if !is_number(word) {
        return None;
    }
    match str::from_utf8(word) {
        Ok(text) => text.parse().ok(),
        Err(_) => None,
    }
}

/// Whether a word is 1 to 10 decimal digits.
fn is_number(word: &[u8]) -> bool
    ensures { result ≡ is_number word.now }
{
    !word.is_empty() && word.len() <= MAX_DIGITS && are_digits(word)
}

/// Whether there are only decimal digits.
fn are_digits(word: &[u8]) -> bool
    ensures { result ≡ list_all is_ascii_digit word.now }
{
    word.iter().all(|octet| octet.is_ascii_digit())
}

/// The octets that a word spells, as many as the array has.
pub fn read_array<const N: usize>(word: &[u8]) -> Result<[u8; N], TextFault>
    ensures { result ≡ exactly_of N word.now }
{
    <[u8; N] as FromHex>::from_hex(word)
        .ok()
        .ok_or(TextFault::Hex)
}

/// The octets that a word spells, whose count lies within bounds. Memory is taken for a word that
/// spells such octets alone.
pub fn read_octets(alloc: Global, word: &[u8], low: usize, high: usize) -> Result<Octets, LineError>
    ensures { Answers result (octets_of (is_within low high) word.now) }
{
    expect_octets(word, low, high)?;
    Ok(decoded(alloc, word)?)
}

/// Whether a word spells octets whose count lies within bounds.
pub fn expect_octets(word: &[u8], low: usize, high: usize) -> Result<(), TextFault>
    ensures { result ≡ checked (octets_of (is_within low high) word.now) }
{
    expect_spelled(word, is_within(word.len() / 2, low, high))
}

/// Whether a word spells a key of 16 or 32 octets.
pub fn expect_key(word: &[u8]) -> Result<(), TextFault>
    ensures { result ≡ checked (octets_of (is_either 16 32) word.now) }
{
    expect_spelled(word, is_key_length(word.len() / 2))
}

/// Whether a number lies within bounds.
fn is_within(number: usize, low: usize, high: usize) -> bool
    ensures { result ≡ is_within low high number }
{
    low <= number && number <= high
}

/// Whether a key may have so many octets: 16 or 32.
fn is_key_length(count: usize) -> bool
    ensures { result ≡ is_either 16 32 count }
{
    count == 16 || count == 32
}

/// Whether a word spells octets, where their count is allowed.
fn expect_spelled(word: &[u8], allowed: bool) -> Result<(), TextFault>
    ensures { result ≡ (if allowed && is_ok (decode_of word.now) then Ok tt else Err Hex) }
{
    if allowed && spells_octets(word) {
        Ok(())
    } else {
        Err(TextFault::Hex)
    }
}

/// The octets that a word spells, where it spells octets.
pub fn decoded(alloc: Global, word: &[u8]) -> Result<Octets, AllocError>
    requires { IsOk (decode_of word.now) }
    ensures { IfOk result (λ octets. decode_of word.now ≡ Ok octets) }
{
    let mut octets = vec![in alloc; 0; word.len() / 2]?;
    decode(word, &mut octets);
    Ok(Octets::of(octets))
}
