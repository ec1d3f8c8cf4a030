//! The rounds of the cipher on a state in the other basis (FIPS 197, section 5.1). The S-box's
//! constant 0x63 is in the round keys.

ghost use Rattle.std.specs.Prelude.{◌≡◌, List, ℕ, map};
ghost use Rattle.aes_block.specs.Aes.{IsBlock};
ghost use Rattle.aes_block.specs.State.{last_round, round};
ghost use Rattle.aes_block.specs.inside.Halves.{changed, masked, masked_last};

use crate::look_ups::look_up;
use crate::substitution::inverse_halves;
use crate::tables::{ONCE_FIRST, ONCE_SECOND, SUB_FIRST, SUB_SECOND, TWICE_FIRST, TWICE_SECOND};
use std::simd::prelude::*;

/// Where ShiftRows takes each octet from (5.1.2).
const SHIFTED: [usize; 16] = [0, 5, 10, 15, 4, 9, 14, 3, 8, 13, 2, 7, 12, 1, 6, 11];

/// The octet of its column that stands a row further.
pub const NEXT: [usize; 16] = [1, 2, 3, 0, 5, 6, 7, 4, 9, 10, 11, 8, 13, 14, 15, 12];

/// The octet of its column that stands a row before it.
pub const BEFORE: [usize; 16] = [3, 0, 1, 2, 7, 4, 5, 6, 11, 8, 9, 10, 15, 12, 13, 14];

/// A round (5.1).
#[inline(always)]
pub fn round(state: u8x16, key: u8x16) -> u8x16
    ensures { (octets words : List ℕ) → IsBlock octets → IsBlock words
        → state ≡ map changed octets → key ≡ map masked words
        → result ≡ map changed (round octets words) }
{
    let (first, second) = inverse_halves(state.swizzle::<16>(SHIFTED));
    let one = look_up(ONCE_FIRST, first) ^ look_up(ONCE_SECOND, second);
    let two = look_up(TWICE_FIRST, first) ^ look_up(TWICE_SECOND, second);
    let sum = one.swizzle::<16>(NEXT) ^ two;
    sum.swizzle::<16>(NEXT) ^ one.swizzle::<16>(BEFORE) ^ sum ^ key
}

/// The last round, in which no column is mixed, and back from the other basis (5.1).
#[inline(always)]
pub fn last_round(state: u8x16, key: u8x16) -> u8x16
    ensures { (octets words : List ℕ) → IsBlock octets → IsBlock words
        → state ≡ map changed octets → key ≡ map masked_last words
        → result ≡ last_round octets words }
{
    let (first, second) = inverse_halves(state.swizzle::<16>(SHIFTED));
    look_up(SUB_FIRST, first) ^ look_up(SUB_SECOND, second) ^ key
}
