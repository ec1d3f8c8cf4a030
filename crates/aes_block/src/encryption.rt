//! The cipher (FIPS 197, section 5.1), from round keys in the other basis.

ghost use Rattle.std.specs.Prelude.{◌≡◌, ◌≤◌, List, ℕ, map};
ghost use Rattle.aes_block.specs.Aes.{aes};
ghost use Rattle.aes_block.specs.Expansion.{expanded_key, round_count};
ghost use Rattle.aes_block.specs.inside.RoundKeys.{AreRoundKeys};

use crate::forward_rounds::{last_round, round};
use crate::look_ups::Row;
use crate::substitution::changed;
use std::simd::prelude::*;

/// The ciphertext of a block, in so many rounds.
#[inline(always)]
pub fn encrypt_in<const ROUNDS: usize>(rows: &[Row; 15], block: u8x16) -> u8x16
    requires some { 1 ≤ ROUNDS }
    requires room { ROUNDS ≤ 14 }
    ensures { (key : List ℕ) → ROUNDS ≡ round_count key
        → AreRoundKeys (expanded_key key) ROUNDS rows.now → result ≡ aes key block }
{
    let mut state = changed(block) ^ rows[0].lanes;
    for i in 1..ROUNDS {
        state = round(state, rows[i].lanes);
    }
    last_round(state, rows[ROUNDS].lanes)
}

/// The same by two loops, each of which is short enough for the compiler to unroll.
#[inline(always)]
pub fn encrypt_by_halves<const HALF: usize, const ROUNDS: usize>(
    rows: &[Row; 15],
    block: u8x16,
) -> u8x16
    requires some { 1 ≤ HALF }
    requires half { HALF ≤ ROUNDS }
    requires room { ROUNDS ≤ 14 }
    ensures { (key : List ℕ) → ROUNDS ≡ round_count key
        → AreRoundKeys (expanded_key key) ROUNDS rows.now → result ≡ aes key block }
{
    let mut state = changed(block) ^ rows[0].lanes;
    for i in 1..HALF {
        state = round(state, rows[i].lanes);
    }
    for i in HALF..ROUNDS {
        state = round(state, rows[i].lanes);
    }
    last_round(state, rows[ROUNDS].lanes)
}
