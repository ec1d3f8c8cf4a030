//! The key expansion, a word at a time (FIPS 197, section 5.2).

ghost use Rattle.std.specs.Prelude.{◌≡◌, ◌/◌, ◌<◌, ◌≤◌, length, map, take};
ghost use Rattle.aes_block.specs.Column.{octets_of};
ghost use Rattle.aes_block.specs.Expansion.{addend, expansion, key_words, next_word, sub_word};

use crate::substitution::sub_octets;
use std::simd::prelude::*;

/// The powers of x from 1 on, in the first octet of a round constant.
const POWERS_OF_X: [u8; 10] = [0x01, 0x02, 0x04, 0x08, 0x10, 0x20, 0x40, 0x80, 0x1b, 0x36];

/// SubWord (5.2).
fn sub_word(word: u32) -> u32
    ensures { octets_of result ≡ sub_word (octets_of word) }
{
    let [a, b, c, d] = word.to_be_bytes();
    let octets = u8x16::from_array([a, b, c, d, 0, 0, 0, 0, 0, 0, 0, 0, 0, 0, 0, 0]);
    let subbed = sub_octets(octets).to_array();
    u32::from_be_bytes([subbed[0], subbed[1], subbed[2], subbed[3]])
}

/// What is added to the word `key_words` places before word `i`, where `last` is the word before
/// it.
fn addend(key_words: usize, i: usize, last: u32) -> u32
    requires some { 0 < key_words }
    requires past_key { key_words ≤ i }
    requires constants { i / key_words ≤ 10 }
    ensures { octets_of result ≡ addend key_words i (octets_of last) }
{
    if i % key_words == 0 {
        let constant = POWERS_OF_X[i / key_words - 1];
        sub_word(last.rotate_left(8)) ^ u32::from_be_bytes([constant, 0, 0, 0])
    } else if key_words > 6 && i % key_words == 4 {
        sub_word(last)
    } else {
        last
    }
}

/// Word `i` of the expanded key, where `words` begins with the words before it.
pub fn next_word(octets: &[u8], words: &[u32], i: usize) -> u32
    requires some { 4 ≤ length octets.now }
    requires room { i < length words.now }
    requires constants { i / key_words octets.now ≤ 10 }
    requires before { map octets_of (take i words.now) ≡ expansion octets.now i }
    ensures { octets_of result ≡ next_word octets.now (expansion octets.now i) i }
{
    let key_words = octets.len() / 4;
    if i < key_words {
        let (own, _) = octets.as_chunks::<4>();
        u32::from_be_bytes(own[i])
    } else {
        words[i - key_words] ^ addend(key_words, i, words[i - 1])
    }
}
