//! The words of a line, one after another: what one says, and what stands behind it.

ghost use Rattle.std.specs.Prelude.{◌≡◌, ◌≤◌, ◌∷◌, length, true, codes};
ghost use Rattle.std.specs.List.{slice_split, position_or_len, list_all};
ghost use Rattle.transcript.specs.inside.Reading.{is_space, is_letter, ends_word, parted, after, taken, taken_after, ended, key_of, held_of, station_of, number_of, an_of, member_of, server_of, secret_of, said_by, tags, last_number, last_told, told_by, last_of, last_octets};
ghost use Rattle.transcript.specs.Words.{cause_text, causes, frame_text, secs};
ghost use Rattle.transcript.specs.inside.Tables.{named};
ghost use Rattle.transcript.specs.inside.Taking.{words_behind, Takes, Answers};

use crate::fault::FactError;
use crate::spelling::{
    an_of, member_of, number_of, octets_of, place_of, secret_of, server_of, tag_of,
};
use crate::tables::{Told, cause_of, sec_of};
use aes_block::Secret;
use gcm_frames::TagRefusal;
use lan_base::{AssociationNumber, KeyId, Mi, Name, Octets};
use memchr::memchr;
use sak_exchange::Cause;
use std::alloc::Global;

/// So many octets of a text are looked at one by one for the end of its first word.
const NEAR: usize = 8;

/// The first word of a text, and what stands behind it, which begins with the space.
#[inline(always)]
pub fn split_word(text: &[u8]) -> (&[u8], &[u8])
    ensures { slice_split is_space text.now ≡ result.0.now ∷ words_behind result.1.now }
{
    text.split_at(word_length(text))
}

/// How many octets stand before a text's first space, or its end. Most words are short, so that a
/// search many octets at a time begins behind the first few.
#[inline(always)]
fn word_length(text: &[u8]) -> usize
    ensures count { result ≡ position_or_len is_space text.now }
    ensures within { result ≤ length text.now }
{
    if text.len() <= NEAR {
        return near_length(text);
    }
    let (front, back) = text.split_at(NEAR);
    let count = near_length(front);
    if count < NEAR {
        return count;
    }
    NEAR + far_length(back)
}

/// The same, octet by octet.
#[inline(always)]
fn near_length(text: &[u8]) -> usize
    ensures count { result ≡ position_or_len is_space text.now }
    ensures within { result ≤ length text.now }
{
    text.iter()
        .position(|octet| *octet == b' ')
        .unwrap_or(text.len())
}

/// The same, many octets at a time.
fn far_length(text: &[u8]) -> usize
    ensures count { result ≡ position_or_len is_space text.now }
    ensures within { result ≤ length text.now }
{
    memchr(b' ', text).unwrap_or(text.len())
}

/// The next word, and what stands behind it, if there is one.
#[inline(always)]
pub fn next_word(rest: &[u8]) -> Option<(&[u8], &[u8])>
    ensures { Takes (λ x. (x.0.now, words_behind x.1.now)) result (parted (words_behind rest.now)) }
{
    match rest {
        [_, text @ ..] => Some(split_word(text)),
        [] => None,
    }
}

/// A line that has no word left.
pub fn no_word(rest: &[u8]) -> Option<()>
    ensures { Takes (λ x. x) result (ended tt (words_behind rest.now)) }
{
    match next_word(rest) {
        None => Some(()),
        Some(_) => None,
    }
}

/// What stands behind these letters, of which none is a space, if they are the next word.
#[inline(always)]
pub fn label<'a>(rest: &'a [u8], letters: &[u8]) -> Option<&'a [u8]>
    requires { list_all is_letter letters.now ≡ true }
    ensures { Takes (λ x. words_behind x.now) result (after letters.now (words_behind rest.now)) }
{
    match rest {
        [_, text @ ..] => behind_letters(text, letters),
        [] => None,
    }
}

/// What stands behind these letters, if they are the first word of a text: they are compared where
/// they would stand, and no word is cut.
#[inline(always)]
fn behind_letters<'a>(text: &'a [u8], letters: &[u8]) -> Option<&'a [u8]>
    requires { list_all is_letter letters.now ≡ true }
    ensures { Takes (λ x. words_behind x.now) result (after letters.now (slice_split is_space text.now)) }
{
    let behind = text.strip_prefix(letters)?;
    if ends_word(behind) {
        Some(behind)
    } else {
        None
    }
}

/// Whether a word ends before these octets: there is none, or a space comes first.
#[inline(always)]
fn ends_word(behind: &[u8]) -> bool
    ensures { result ≡ ends_word behind.now }
{
    match behind {
        [first, ..] => *first == b' ',
        [] => true,
    }
}

/// The place of the station that the next word names.
#[inline(always)]
pub fn station<'a>(rest: &'a [u8], names: &[Name]) -> Option<(u8, &'a [u8])>
    ensures { Takes (λ x. (x.0, words_behind x.1.now)) result
        (taken (station_of names.now) (words_behind rest.now)) }
{
    let (word, rest) = next_word(rest)?;
    let place = place_of(word, names)?;
    Some((place, rest))
}

/// An association number.
#[inline(always)]
pub fn an(rest: &[u8]) -> Option<(AssociationNumber, &[u8])>
    ensures { Takes (λ x. (x.0, words_behind x.1.now)) result (taken an_of (words_behind rest.now)) }
{
    let (word, rest) = next_word(rest)?;
    let an = an_of(word)?;
    Some((an, rest))
}

/// An association number behind its label.
#[inline(always)]
pub fn labelled_an(rest: &[u8]) -> Option<(AssociationNumber, &[u8])>
    ensures { Takes (λ x. (x.0, words_behind x.1.now)) result
        (taken_after (codes "an") an_of (words_behind rest.now)) }
{
    let rest = label(rest, b"an")?;
    an(rest)
}

/// An epoch behind its label.
#[inline(always)]
pub fn labelled_epoch(rest: &[u8]) -> Option<(u32, &[u8])>
    ensures { Takes (λ x. (x.0, words_behind x.1.now)) result
        (taken_after (codes "epoch") (number_of 32) (words_behind rest.now)) }
{
    let rest = label(rest, b"epoch")?;
    number_32(rest)
}

/// A number of 32 bits.
#[inline(always)]
pub fn number_32(rest: &[u8]) -> Option<(u32, &[u8])>
    ensures { Takes (λ x. (x.0, words_behind x.1.now)) result
        (taken (number_of 32) (words_behind rest.now)) }
{
    let (word, rest) = next_word(rest)?;
    let number = number_of(word, u64::from(u32::MAX))?;
    Some((number as u32, rest))
}

/// A number of 64 bits.
pub fn number_64(rest: &[u8]) -> Option<(u64, &[u8])>
    ensures { Takes (λ x. (x.0, words_behind x.1.now)) result
        (taken (number_of 64) (words_behind rest.now)) }
{
    let (word, rest) = next_word(rest)?;
    let number = number_of(word, u64::MAX)?;
    Some((number, rest))
}

/// A member identifier.
pub fn member(rest: &[u8]) -> Option<(Mi, &[u8])>
    ensures { Takes (λ x. (x.0, words_behind x.1.now)) result
        (taken member_of (words_behind rest.now)) }
{
    let (word, rest) = next_word(rest)?;
    let mi = member_of(word)?;
    Some((mi, rest))
}

/// A key's identifier: its server, and its number.
pub fn key(rest: &[u8]) -> Option<(KeyId, &[u8])>
    ensures { Takes (λ x. (x.0, words_behind x.1.now)) result (key_of (words_behind rest.now)) }
{
    let (server, rest) = member(rest)?;
    let (number, rest) = number_32(rest)?;
    Some((KeyId { server, number }, rest))
}

/// A key of a station: `NAME MI NUMBER an A`.
#[derive(Clone, Copy)]
pub struct Held {
    pub station: u8,
    pub id: KeyId,
    pub an: AssociationNumber,
}

/// The words of such a key.
pub fn held_key<'a>(rest: &'a [u8], names: &[Name]) -> Option<(Held, &'a [u8])>
    ensures { Takes (λ x. (x.0, words_behind x.1.now)) result
        (held_of names.now (words_behind rest.now)) }
{
    let (station, rest) = station(rest, names)?;
    let (id, rest) = key(rest)?;
    let (an, rest) = labelled_an(rest)?;
    Some((Held { station, id, an }, rest))
}

/// An elected server, or none.
pub fn server(rest: &[u8]) -> Option<(Option<Mi>, &[u8])>
    ensures { Takes (λ x. (x.0, words_behind x.1.now)) result
        (taken server_of (words_behind rest.now)) }
{
    let (word, rest) = next_word(rest)?;
    let server = server_of(word)?;
    Some((server, rest))
}

/// A key of 128 or 256 bits.
pub fn secret(rest: &[u8]) -> Option<(Secret, &[u8])>
    ensures { Takes (λ x. (x.0, words_behind x.1.now)) result
        (taken secret_of (words_behind rest.now)) }
{
    let (word, rest) = next_word(rest)?;
    let secret = secret_of(word)?;
    Some((secret, rest))
}

/// Why a key begins.
pub fn cause(rest: &[u8]) -> Option<(Cause, &[u8])>
    ensures { Takes (λ x. (x.0, words_behind x.1.now)) result
        (taken (named cause_text causes) (words_behind rest.now)) }
{
    let (word, rest) = next_word(rest)?;
    let cause = cause_of(word)?;
    Some((cause, rest))
}

/// Whether a frame is a protected one.
pub fn sec(rest: &[u8]) -> Option<(bool, &[u8])>
    ensures { Takes (λ x. (x.0, words_behind x.1.now)) result
        (taken (named frame_text secs) (words_behind rest.now)) }
{
    let (word, rest) = next_word(rest)?;
    let sec = sec_of(word)?;
    Some((sec, rest))
}

/// Why a frame is no protected frame.
pub fn tag(rest: &[u8]) -> Option<(TagRefusal, &[u8])>
    ensures { Takes (λ x. (x.0, words_behind x.1.now)) result
        (taken (said_by tags) (words_behind rest.now)) }
{
    let (word, rest) = next_word(rest)?;
    let refusal = tag_of(word)?;
    Some((refusal, rest))
}

/// What the words left tell: one word, or one and a number.
pub fn told(rest: &[u8]) -> Option<Told<'_>>
    ensures { Takes (λ x. (x.word.now, x.number)) result (last_told (words_behind rest.now)) }
{
    let (word, rest) = next_word(rest)?;
    told_by(word, rest)
}

/// What a word tells with the number behind it, if a word stands there.
pub fn told_by<'a>(word: &'a [u8], rest: &'a [u8]) -> Option<Told<'a>>
    ensures { Takes (λ x. (x.word.now, x.number)) result (told_by word.now (words_behind rest.now)) }
{
    let number = last_number(rest)?;
    Some(Told { word, number })
}

/// The number that the words left are, if there are any.
fn last_number(rest: &[u8]) -> Option<Option<u64>>
    ensures { Takes (λ x. x) result (last_number (words_behind rest.now)) }
{
    let Some((word, rest)) = next_word(rest) else {
        return Some(None);
    };
    let number = number_of(word, u64::MAX)?;
    no_word(rest)?;
    Some(Some(number))
}

/// The octets that the last word spells. Memory is taken for such a word alone.
pub fn octets(alloc: Global, rest: &[u8]) -> Result<Octets, FactError>
    ensures { Answers (λ x. x) result (last_octets (words_behind rest.now)) }
{
    let word = last_word(rest).ok_or(FactError::Unread)?;
    octets_of(alloc, word)
}

/// The next word, if no other stands behind it.
fn last_word(rest: &[u8]) -> Option<&[u8]>
    ensures { Takes (λ x. x.now) result (last_of (words_behind rest.now)) }
{
    let (word, rest) = next_word(rest)?;
    no_word(rest)?;
    Some(word)
}
