//! What one word says.

ghost use Rattle.std.specs.Prelude.{◌≡◌, ◌≤◌, Ok, true, nat_le, length};
ghost use Rattle.std.specs.List.{list_all};
ghost use Rattle.transcript.specs.inside.Reading.{and_then, kept_if, position_of, station_of, whole_of, is_small_digit, is_pairs, octets_of, array_of, an_of, member_of, server_of, secret_of, said_by, tags};
ghost use Rattle.transcript.specs.inside.Numerals.{is_led};
ghost use Rattle.transcript.specs.inside.Taking.{Answers};

use crate::fault::FactError;
use aes_block::Secret;
use gcm_frames::TagRefusal;
use hex::FromHex;
use lan_base::{AssociationNumber, Mi, Name, Octets};
use std::alloc::Global;
use std::str;
use trace_text::decoded;

/// So many digits, of any value, spell a number of 64 bits.
const FEW_DIGITS: usize = 19;

/// The place of the station that a word names.
#[inline(always)]
pub fn place_of(word: &[u8], names: &[Name]) -> Option<u8>
    ensures { result ≡ station_of names.now word.now }
{
    let place = position_of(word, names)?;
    if place < 256 { Some(place as u8) } else { None }
}

/// The place of the first name that a word is.
fn position_of(word: &[u8], names: &[Name]) -> Option<usize>
    ensures { result ≡ position_of names.now word.now }
{
    names.iter().position(|name| name.octets() == word)
}

/// The number up to `most` that a word spells, without leading zeros.
#[inline(always)]
pub fn number_of(word: &[u8], most: u64) -> Option<u64>
    ensures { result ≡ and_then (whole_of word.now) (λ n. kept_if (nat_le n most) n) }
{
    let number = whole_of(word)?;
    if number <= most { Some(number) } else { None }
}

/// The number that a word spells, without leading zeros.
#[inline(always)]
fn whole_of(word: &[u8]) -> Option<u64>
    ensures { result ≡ whole_of word.now }
{
    if !is_led(word) {
        return None;
    }
    if word.len() <= FEW_DIGITS {
        summed(word)
    } else {
        parsed(word)
    }
}

/// Whether a word begins with a digit that is not 0, or is 0 alone.
#[inline(always)]
fn is_led(word: &[u8]) -> bool
    ensures { result ≡ is_led word.now }
{
    match word {
        [first, rest @ ..] => { matches!(*first, b'1'..=b'9') || *first == b'0' && rest.is_empty() }
        [] => false,
    }
}

/// The same of a word that begins so and has few octets: each digit is looked at once.
#[inline(always)]
fn summed(word: &[u8]) -> Option<u64>
    requires { length word.now ≤ 19 }
    ensures { is_led word.now ≡ true → result ≡ whole_of word.now }
{
    let mut sum: u64 = 0;
    for octet in word {
        if !octet.is_ascii_digit() {
            return None;
        }
        sum = sum * 10 + u64::from(*octet - b'0');
    }
    Some(sum)
}

/// The same of a word that begins so.
fn parsed(word: &[u8]) -> Option<u64>
    ensures { is_led word.now ≡ true → result ≡ whole_of word.now }
{
    match str::from_utf8(word) {
        Ok(text) => text.parse::<u64>().ok(),
        Err(_) => None,
    }
}

/// The association number that a word spells.
#[inline(always)]
pub fn an_of(word: &[u8]) -> Option<AssociationNumber>
    ensures { result ≡ an_of word.now }
{
    let number = number_of(word, 3)?;
    AssociationNumber::of(number as u32)
}

/// The member identifier that a word spells.
pub fn member_of(word: &[u8]) -> Option<Mi>
    ensures { result ≡ member_of word.now }
{
    Some(Mi(array_of(word)?))
}

/// The elected server that a word tells, or that there is none.
pub fn server_of(word: &[u8]) -> Option<Option<Mi>>
    ensures { result ≡ server_of word.now }
{
    if word == b"none".as_slice() {
        return Some(None);
    }
    Some(Some(member_of(word)?))
}

/// The key that a word spells, of 16 or 32 octets.
pub fn secret_of(word: &[u8]) -> Option<Secret>
    ensures { result ≡ secret_of word.now }
{
    if let Some(octets) = array_of(word) {
        return Some(Secret::S128(octets));
    }
    Some(Secret::S256(array_of(word)?))
}

/// Why a frame is no protected frame.
pub fn tag_of(word: &[u8]) -> Option<TagRefusal>
    ensures { result ≡ said_by tags word.now }
{
    if word == b"notsec".as_slice() {
        return Some(TagRefusal::NotSec);
    }
    if word == b"version".as_slice() {
        return Some(TagRefusal::Version);
    }
    if word == b"mode".as_slice() {
        return Some(TagRefusal::Mode);
    }
    if word == b"short".as_slice() {
        return Some(TagRefusal::Short);
    }
    if word == b"slwrong".as_slice() {
        return Some(TagRefusal::SlWrong);
    }
    None
}

/// The octets that a word spells, as many as the array has.
fn array_of<const N: usize>(word: &[u8]) -> Option<[u8; N]>
    ensures { result ≡ array_of N word.now }
{
    if is_pairs(word) {
        <[u8; N] as FromHex>::from_hex(word).ok()
    } else {
        None
    }
}

/// The octets that a word spells. Memory is taken for a word that spells octets alone.
pub fn octets_of(alloc: Global, word: &[u8]) -> Result<Octets, FactError>
    ensures { Answers (λ x. x) result (octets_of word.now) }
{
    if !is_pairs(word) {
        return Err(FactError::Unread);
    }
    match decoded(alloc, word) {
        Ok(octets) => Ok(octets),
        Err(_) => Err(FactError::Memory),
    }
}

/// Whether a word is pairs of hexadecimal digits, in lower case.
fn is_pairs(word: &[u8]) -> bool
    ensures { result ≡ is_pairs word.now }
{
    word.len() % 2 == 0 && are_small_digits(word)
}

/// Whether each octet is such a digit. The loop has no branch on an octet, so that the compiler
/// takes many at a time.
fn are_small_digits(word: &[u8]) -> bool
    ensures { result ≡ list_all is_small_digit word.now }
{
    let mut all = true;
    for octet in word {
        all &= is_small_digit(*octet);
    }
    all
}

/// Whether an octet is a hexadecimal digit, in lower case.
#[inline(always)]
fn is_small_digit(octet: u8) -> bool
    ensures { result ≡ is_small_digit octet }
{
    matches!(octet, b'0'..=b'9' | b'a'..=b'f')
}
