//! A key, expanded to words (FIPS 197, section 5.2).

use crate::expansion::next_word;
use std::marker::Model;

/// How long a key is. Keys of 192 bits are left out.
#[derive(Clone, Copy)]
pub enum Length {
    Bits128,
    Bits256,
}

impl Length {
    ghost use Rattle.std.specs.Prelude.{◌≡◌, ◌+◌};
    ghost use Rattle.aes_block.specs.inside.Held.{words_of};

    /// How many rounds the cipher has with the key (5).
    fn rounds(self) -> usize
        ensures { result ≡ words_of self + 6 }
    {
        match self {
            Length::Bits128 => 10,
            Length::Bits256 => 14,
        }
    }
}

/// A cipher key, expanded once: as many words as its cipher has use for, and zeros. Contracts see
/// it as its octets.
#[derive(Clone, Drop)]
pub struct ExpandedKey {
    len: Length,
    words: [u32; 60],
}

impl Model for ExpandedKey {
    ghost use Rattle.std.specs.Prelude.{List, ℕ, ◌≡◌, length, map, take};
    ghost use Rattle.aes_block.specs.Column.{octets_of};
    ghost use Rattle.aes_block.specs.Expansion.{expanded_key};
    ghost use Rattle.aes_block.specs.inside.Held.{key_octets};

    ghost Value = { List ℕ };

    ghost view = { λ k. key_octets k.len k.words };

    ghost invariant = { λ k.
        let expanded = expanded_key (key_octets k.len k.words) in
        map octets_of (take (length expanded) k.words) ≡ expanded };
}

impl ExpandedKey {
    ghost use Rattle.std.specs.Prelude.{◌≡◌, ◌≤◌, ◌*◌, ◌⊎◌, length};
    ghost use Rattle.aes_block.specs.Aes.{IsKey};
    ghost use Rattle.aes_block.specs.Expansion.{expanded_key, round_count, round_key};
    ghost use Rattle.aes_block.specs.inside.Held.{words_of};

    /// The key with these octets, as many as the length says.
    pub fn of(len: Length, octets: &[u8]) -> ExpandedKey
        requires { length octets.now ≡ 4 * words_of len }
        ensures { result ≡ octets.now }
    {
        let mut words = [0; 60];
        for i in 0..4 * (len.rounds() + 1) {
            words[i] = next_word(octets, &words, i);
        }
        ExpandedKey { len, words }
    }

    /// How many rounds the cipher has under this key.
    pub fn round_count(&self) -> usize
        ensures key { IsKey self.now }
        ensures length { (length self.now ≡ 16) ⊎ (length self.now ≡ 32) }
        ensures count { result ≡ round_count self.now }
    {
        self.len.rounds()
    }

    /// The key of a round, and of the addition before the first.
    pub fn round_key(&self, i: usize) -> [u8; 16]
        requires { i ≤ round_count self.now }
        ensures { result ≡ round_key (expanded_key self.now) i }
    {
        four_words(&self.words, 4 * i)
    }
}

ghost use Rattle.std.specs.Prelude.{◌≡◌, ◌+◌, ◌≤◌, ◌++◌, length, slice_index};
ghost use Rattle.aes_block.specs.Column.{octets_of};

/// The octets of four words in a row (5.1.4).
fn four_words(words: &[u32], at: usize) -> [u8; 16]
    requires { at + 4 ≤ length words.now }
    ensures { result
        ≡ octets_of (slice_index words.now at) ++ octets_of (slice_index words.now (at + 1))
        ++ octets_of (slice_index words.now (at + 2))
        ++ octets_of (slice_index words.now (at + 3)) }
{
    let [a0, a1, a2, a3] = words[at].to_be_bytes();
    let [b0, b1, b2, b3] = words[at + 1].to_be_bytes();
    let [c0, c1, c2, c3] = words[at + 2].to_be_bytes();
    let [d0, d1, d2, d3] = words[at + 3].to_be_bytes();
    [
        a0, a1, a2, a3, b0, b1, b2, b3, c0, c1, c2, c3, d0, d1, d2, d3,
    ]
}
