//! The rows of a block, by which products with it are looked up (SP 800-38D, section 6.3). A block
//! is a number whose highest bit is the first of the string.

ghost use Rattle.std.specs.Prelude.{◌≡◌, ◌<◌, ℕ, map, slice_index};
ghost use Rattle.aes_block.specs.Product.{times_x};
ghost use Rattle.gcm_core.specs.Blocks.{block_bits, block_octets};
ghost use Rattle.gcm_core.specs.Ghash.{reduction};
ghost use Rattle.gcm_core.specs.inside.Powers.{AreRows};
ghost use Rattle.gcm_core.specs.inside.Rows.{lanes_in, row_of, rows_in};
ghost use Rattle.gcm_core.specs.inside.Tables.{AreProducts, times_power};

use aes_block::{Row, look_up};
use std::simd::prelude::*;

/// R: 11100001 and then 120 zeros.
const REDUCTION: u128 = 0xe1 << 120;

/// Row `o` has octet `o` of the product of a block with every four bits, at the first four places
/// of an octet and at the last.
#[derive(Clone, Copy)]
pub struct HashRows {
    pub first: [Row; 16],
    pub last: [Row; 16],
}

/// The rows of a block.
pub fn rows_of(block: u128) -> HashRows
    ensures { AreRows (block_bits block) (rows_in result.first result.last) }
{
    HashRows {
        first: turned(&nibble_products(block)),
        last: turned(&nibble_products(times_x4(block))),
    }
}

/// What a row has for each octet.
#[inline(always)]
pub fn row(first: u8x16, last: u8x16, octets: u8x16) -> u8x16
    ensures { result ≡ map (row_of first last) octets }
{
    look_up(first.to_array(), octets >> u8x16::splat(4))
        ^ look_up(last.to_array(), octets & u8x16::splat(15))
}

/// The products of a block with every four bits at the first places of another.
fn nibble_products(block: u128) -> [u128; 16]
    ensures { AreProducts (block_bits block) result }
{
    let second = times_x(block);
    let third = times_x(second);
    let fourth = times_x(third);
    [
        0,
        fourth,
        third,
        third ^ fourth,
        second,
        second ^ fourth,
        second ^ third,
        second ^ (third ^ fourth),
        block,
        block ^ fourth,
        block ^ third,
        block ^ (third ^ fourth),
        block ^ second,
        block ^ (second ^ fourth),
        block ^ (second ^ third),
        block ^ (second ^ (third ^ fourth)),
    ]
}

/// The block times x^4.
fn times_x4(block: u128) -> u128
    ensures { block_bits result ≡ times_power 4 (block_bits block) }
{
    times_x(times_x(times_x(times_x(block))))
}

/// The block times x: one place to the right, and reduced where a bit fell out.
fn times_x(block: u128) -> u128
    ensures { block_bits result ≡ times_x reduction (block_bits block) }
{
    block >> 1 ^ (block & 1) * REDUCTION
}

/// Row `o` has octet `o` of each block.
fn turned(blocks: &[u128; 16]) -> [Row; 16]
    ensures { (o : ℕ) → o < 16
        → lanes_in result o ≡ map (λ b. slice_index (block_octets b) o) blocks.now }
{
    let mut rows = [Row {
        lanes: u8x16::splat(0),
    }; 16];
    for o in 0..16usize {
        rows[o] = Row {
            lanes: octets_at(blocks, o),
        };
    }
    rows
}

/// Octet `o` of each block.
fn octets_at(blocks: &[u128; 16], o: usize) -> u8x16
    requires { o < 16 }
    ensures { result ≡ map (λ b. slice_index (block_octets b) o) blocks.now }
{
    let mut octets = [0; 16];
    for n in 0..16usize {
        octets[n] = blocks[n].to_be_bytes()[o];
    }
    u8x16::from_array(octets)
}
