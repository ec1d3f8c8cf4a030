//! The rounds undone, on the 16 octets of a state at once (FIPS 197, section 5.3).

ghost use Rattle.std.specs.Prelude.{◌≡◌, map};
ghost use Rattle.aes_block.specs.Octet.{times};
ghost use Rattle.aes_block.specs.State.{last_round, mix_columns, round, shift_rows};

use crate::forward_rounds::{BEFORE, NEXT};
use crate::look_ups::look_up;
use crate::substitution::inv_sub_octets;
use crate::tables::{DOUBLED_HIGH, DOUBLED_LOW};
use std::simd::prelude::*;

/// Where InvShiftRows takes each octet from (5.3.1).
const SHIFTED_BACK: [usize; 16] = [0, 13, 10, 7, 4, 1, 14, 11, 8, 5, 2, 15, 12, 9, 6, 3];

/// The octet of its column that stands two rows further.
const ACROSS: [usize; 16] = [2, 3, 0, 1, 6, 7, 4, 5, 10, 11, 8, 9, 14, 15, 12, 13];

/// A round undone: the state before one with this key (5.3).
pub fn inv_round(state: u8x16, key: u8x16) -> u8x16
    ensures { round result key ≡ state }
{
    inv_sub_octets(shifted_back(inv_mixed(state ^ key)))
}

/// A last round undone: the state before one with this key (5.3).
pub fn inv_last_round(state: u8x16, key: u8x16) -> u8x16
    ensures { last_round result key ≡ state }
{
    inv_sub_octets(shifted_back(state ^ key))
}

/// InvShiftRows (5.3.1).
fn shifted_back(octets: u8x16) -> u8x16
    ensures { shift_rows result ≡ octets }
{
    octets.swizzle::<16>(SHIFTED_BACK)
}

/// InvMixColumns (5.3.3). The polynomial by which a column is mixed has the square 4 x ^ 2 + 5 and
/// the fourth power 1, so that the product with the square, mixed, is the inverse.
fn inv_mixed(octets: u8x16) -> u8x16
    ensures { mix_columns result ≡ octets }
{
    mixed(octets ^ doubled(doubled(octets ^ octets.swizzle::<16>(ACROSS))))
}

/// MixColumns (5.1.3).
fn mixed(octets: u8x16) -> u8x16
    ensures { result ≡ mix_columns octets }
{
    let twice = doubled(octets);
    twice
        ^ (octets ^ twice).swizzle::<16>(NEXT)
        ^ octets.swizzle::<16>(ACROSS)
        ^ octets.swizzle::<16>(BEFORE)
}

/// Each octet times x (4.2.1).
fn doubled(octets: u8x16) -> u8x16
    ensures { result ≡ map (times 2) octets }
{
    look_up(DOUBLED_LOW, octets & u8x16::splat(15))
        ^ look_up(DOUBLED_HIGH, octets >> u8x16::splat(4))
}
