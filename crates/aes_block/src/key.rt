//! Keys, and the cipher and its inverse under them (FIPS 197, sections 5.1 and 5.3).

ghost use Rattle.std.specs.Prelude.{◌≡◌};
ghost use Rattle.aes_block.specs.inside.RoundKeys.{kept};

use crate::encryption::{encrypt_by_halves, encrypt_in};
use crate::expanded_key::{ExpandedKey, Length};
use crate::inverse_rounds::{inv_last_round, inv_round};
use crate::look_ups::Row;
use crate::secret::Secret;
use crate::substitution::changed;
use std::fmt;
use std::marker::Model;
use std::simd::prelude::*;

/// A cipher key with its round keys, as the rounds take them. Contracts see it as its octets.
#[derive(Clone, Drop)]
pub struct Key {
    expanded: ExpandedKey,
    rounds: usize,
    rows: [Row; 15],
}

impl Model for Key {
    ghost use Rattle.std.specs.Prelude.{List, ℕ};
    ghost use Rattle.aes_block.specs.inside.RoundKeys.{AreKept};

    ghost Value = { List ℕ };

    ghost view = { λ k. k.expanded };

    ghost invariant = { λ k. AreKept k.expanded k.rounds k.rows };
}

impl fmt::Debug for Key {
    ghost use Rattle.std.specs.Prelude.{Some};
    ghost use Rattle.aes_block.specs.Secrets.{key_text};

    ghost debug_output = { λ key. Some (key_text key) };

    /// Says how long the key is, and nothing of its octets.
    fn fmt<W: fmt::Write>(&self, f: &mut fmt::Formatter<W>) -> fmt::Result {
        if self.rounds == 10 {
            f.write_str("Key(128 bits)")
        } else {
            f.write_str("Key(256 bits)")
        }
    }
}

impl Key {
    ghost use Rattle.std.specs.Prelude.{◌≡◌, ◌≤◌, ◌⊎◌, List, ℕ, length};
    ghost use Rattle.aes_block.specs.Aes.{aes, IsBlock, IsKey};
    ghost use Rattle.aes_block.specs.Expansion.{expanded_key, round_count, round_key};
    ghost use Rattle.aes_block.specs.Secrets.{secret_octets};

    /// The key of 128 bits with these octets.
    pub fn k128(octets: &[u8; 16]) -> Key
        ensures { result ≡ octets.now }
    {
        Key::prepared(ExpandedKey::of(Length::Bits128, octets))
    }

    /// The key of 256 bits with these octets.
    pub fn k256(octets: &[u8; 32]) -> Key
        ensures { result ≡ octets.now }
    {
        Key::prepared(ExpandedKey::of(Length::Bits256, octets))
    }

    /// The key with a secret's octets.
    pub fn of(secret: &Secret) -> Key
        ensures { result ≡ secret_octets secret.now }
    {
        match secret {
            Secret::S128(octets) => Key::k128(octets),
            Secret::S256(octets) => Key::k256(octets),
        }
    }

    /// The key with its round keys as the rounds take them.
    fn prepared(expanded: ExpandedKey) -> Key
        ensures { result ≡ expanded }
    {
        let rounds = expanded.round_count();
        let mut rows = [Row {
            lanes: u8x16::splat(0),
        }; 15];
        for i in 0..rounds + 1 {
            rows[i] = Row {
                lanes: kept(i, rounds, u8x16::from_array(expanded.round_key(i))),
            };
        }
        Key {
            expanded,
            rounds,
            rows,
        }
    }

    /// The ciphertext of a block.
    #[inline(always)]
    pub fn encrypt(&self, block: [u8; 16]) -> [u8; 16]
        ensures key { IsKey self.now }
        ensures length { (length self.now ≡ 16) ⊎ (length self.now ≡ 32) }
        ensures ciphertext { result ≡ aes self.now block }
    {
        let octets = u8x16::from_array(block);
        if self.rounds == 10 {
            encrypt_in::<10>(&self.rows, octets).to_array()
        } else {
            encrypt_by_halves::<8, 14>(&self.rows, octets).to_array()
        }
    }

    /// The block whose ciphertext this is.
    pub fn decrypt(&self, block: [u8; 16]) -> [u8; 16]
        ensures key { IsKey self.now }
        ensures length { (length self.now ≡ 16) ⊎ (length self.now ≡ 32) }
        ensures undone { aes self.now result ≡ block }
        ensures only { (text : List ℕ) → IsBlock text → aes self.now text ≡ block → result ≡ text }
    {
        let rounds = self.round_count();
        let mut state = inv_last_round(u8x16::from_array(block), self.round_key(rounds));
        for i in (1..rounds).rev() {
            state = inv_round(state, self.round_key(i));
        }
        (state ^ self.round_key(0)).to_array()
    }

    /// The key has as many octets as a key of AES.
    #[inline(always)]
    pub fn law_is_key(&self)
        ensures { IsKey self.now }
    {
        let _ = &self.expanded;
    }

    /// How many rounds the cipher has under this key.
    fn round_count(&self) -> usize
        ensures key { IsKey self.now }
        ensures length { (length self.now ≡ 16) ⊎ (length self.now ≡ 32) }
        ensures count { result ≡ round_count self.now }
    {
        self.rounds
    }

    /// The key of a round, and of the addition before the first, as FIPS 197 has it.
    fn round_key(&self, i: usize) -> u8x16
        requires { i ≤ round_count self.now }
        ensures { result ≡ round_key (expanded_key self.now) i }
    {
        u8x16::from_array(self.expanded.round_key(i))
    }
}

/// The key of a round, as the round takes it, where the last round is given.
fn kept(i: usize, last: usize, octets: u8x16) -> u8x16
    ensures { result ≡ kept i last octets }
{
    if i == 0 {
        changed(octets)
    } else if i < last {
        changed(octets) ^ u8x16::splat(0x5b)
    } else {
        octets ^ u8x16::splat(0x63)
    }
}
