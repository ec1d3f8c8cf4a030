//! Products before they are reduced: blocks of 256 places, as two vectors of 16 octets (SP 800-38D,
//! section 6.3).

ghost use Rattle.std.specs.Prelude.{◌≡◌, ◌∷◌, ◌++◌, take, drop};
ghost use Rattle.aes_block.specs.Product.{sum_of};
ghost use Rattle.gcm_core.specs.Blocks.{block_bits};
ghost use Rattle.gcm_core.specs.inside.Rows.{first_octet, lanes_sum};
ghost use Rattle.gcm_core.specs.inside.Tables.{times_power};

use std::simd::prelude::*;

/// Of the octets of two vectors those from the last of the first vector on.
const FROM_THE_LAST: [usize; 16] = [
    15, 16, 17, 18, 19, 20, 21, 22, 23, 24, 25, 26, 27, 28, 29, 30,
];

/// The first 16 of 32 octets that are moved on by one.
#[inline(always)]
pub fn moved_low(low: u8x16) -> u8x16
    ensures { result ≡ 0 ∷ take 15 low }
{
    u8x16::splat(0).shuffle::<16>(low, FROM_THE_LAST)
}

/// The others.
#[inline(always)]
pub fn moved_high(low: u8x16, high: u8x16) -> u8x16
    ensures { result ≡ drop 15 low ++ take 15 high }
{
    low.shuffle::<16>(high, FROM_THE_LAST)
}

/// 16 octets as a number.
#[inline(always)]
pub fn number(octets: u8x16) -> u128
    ensures { block_bits result ≡ lanes_sum first_octet octets }
{
    u128::from_be_bytes(octets.to_array())
}

/// The first 128 places and x^128 times the others, reduced: x^128 is 1 + x + x^2 + x^7.
#[inline(always)]
pub fn reduced(low: u128, high: u128) -> u128
    ensures { block_bits result ≡ sum_of (block_bits low) (times_power 128 (block_bits high)) }
{
    let fallen = (high << 127) ^ ((high << 126) ^ (high << 121));
    let whole = high ^ fallen;
    low ^ (whole ^ ((whole >> 1) ^ ((whole >> 2) ^ (whole >> 7))))
}
