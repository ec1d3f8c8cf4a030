//! The words of a line, one after another.

ghost use Rattle.std.specs.Prelude.{◌≡◌, ◌<◌, ◌≤◌, [], ◌∷◌, IfNone, IfSome, length, not};
ghost use Rattle.std.specs.List.{position_or_len};
ghost use Rattle.trace_text.specs.Words.{words_of, is_blank};
ghost use Rattle.trace_text.specs.Answering.{Takes};

use crate::fault::TextFault;
use memchr::memchr2;

/// The first word of a line and what stands behind it, if it has a word.
pub fn next_word(line: &[u8]) -> Option<(&[u8], &[u8])>
    ensures word { IfSome result (λ x. words_of line.now ≡ x.0.now ∷ words_of x.1.now) }
    ensures end { IfNone result (words_of line.now ≡ []) }
    ensures shorter { IfSome result (λ x. length x.1.now < length line.now) }
{
    let (_, line) = line.split_at(blank_count(line));
    if line.is_empty() {
        return None;
    }
    Some(line.split_at(word_length(line)))
}

/// How many blanks a line begins with.
fn blank_count(line: &[u8]) -> usize
    ensures count { result ≡ position_or_len (λ octet. not (is_blank octet)) line.now }
    ensures within { result ≤ length line.now }
{
    line.iter()
        .position(|octet| !is_blank(*octet))
        .unwrap_or(line.len())
}

/// How many octets stand before a line's first blank, or its end.
fn word_length(line: &[u8]) -> usize
    ensures count { result ≡ position_or_len is_blank line.now }
    ensures within { result ≤ length line.now }
{
    memchr2(b' ', b'\t', line).unwrap_or(line.len())
}

/// Space and tab stand between words.
fn is_blank(octet: u8) -> bool
    ensures { result ≡ is_blank octet }
{
    octet == b' ' || octet == b'\t'
}

/// A line that has no word.
pub fn no_word(line: &[u8]) -> Result<(), TextFault>
    ensures { Takes 0 result (λ _. []) (words_of line.now) }
{
    match next_word(line) {
        None => Ok(()),
        Some(_) => Err(TextFault::Count),
    }
}

/// The word of a line that has one.
pub fn one_word(line: &[u8]) -> Result<&[u8], TextFault>
    ensures { Takes 1 result (λ x. x.now ∷ []) (words_of line.now) }
{
    let (first, rest) = next_word(line).ok_or(TextFault::Count)?;
    no_word(rest)?;
    Ok(first)
}

/// The words of a line that has two.
pub fn two_words(line: &[u8]) -> Result<(&[u8], &[u8]), TextFault>
    ensures { Takes 2 result (λ x. x.0.now ∷ x.1.now ∷ []) (words_of line.now) }
{
    let (first, rest) = next_word(line).ok_or(TextFault::Count)?;
    let second = one_word(rest)?;
    Ok((first, second))
}

/// The words of a line that has three.
pub fn three_words(line: &[u8]) -> Result<(&[u8], &[u8], &[u8]), TextFault>
    ensures { Takes 3 result (λ x. x.0.now ∷ x.1.now ∷ x.2.now ∷ []) (words_of line.now) }
{
    let (first, rest) = next_word(line).ok_or(TextFault::Count)?;
    let (second, third) = two_words(rest)?;
    Ok((first, second, third))
}
