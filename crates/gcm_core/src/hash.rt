//! The hash of GCM (SP 800-38D, section 6.4), four blocks at once.

ghost use Rattle.std.specs.Prelude.{◌≡◌, ◌+◌, ◌-◌, ◌≤◌, ◌++◌, length, replicate};
ghost use Rattle.std.specs.Simd.{first_chunks};
ghost use Rattle.gcm_core.specs.Blocks.{block_bits, block_octets, blocks_of, padded};
ghost use Rattle.gcm_core.specs.Ghash.{ghash, reduction};
ghost use Rattle.aes_block.specs.Product.{product};
ghost use Rattle.gcm_core.specs.Gcm.{hashed, lengths, most_text_octets};

use crate::hash_key::HashKey;
use std::simd::prelude::*;

/// The hash of the additional data and the ciphertext under a hash key.
pub fn hash_of(key: &HashKey, extra: &[u8], ciphertext: &[u8]) -> u128
    requires extra { length extra.now ≤ most_text_octets }
    requires ciphertext { length ciphertext.now ≤ most_text_octets }
    ensures { block_bits result ≡ hashed (block_bits key.now) extra.now ciphertext.now }
{
    let after_extra = absorbed(key, 0, extra);
    let after_text = absorbed(key, after_extra, ciphertext);
    multiplied(key, after_text ^ lengths(extra, ciphertext))
}

/// The product of the hash key and a block.
#[inline(always)]
fn multiplied(key: &HashKey, x: u128) -> u128
    ensures { block_bits result ≡ product reduction (block_bits x) (block_bits key.now) }
{
    key.times(u8x16::from_array(x.to_be_bytes()))
}

/// The hash after the blocks of octets, the last one padded with zeros, from one before them.
pub fn absorbed(key: &HashKey, before: u128, octets: &[u8]) -> u128
    ensures { block_bits result
        ≡ ghash (block_bits key.now) (block_bits before) (blocks_of (padded octets.now)) }
{
    let (fours, rest) = octets.as_chunks::<64>();
    let mut value = before;
    for four in fours {
        value = after_four(key, value, four);
    }
    absorbed_by_one(key, value, rest)
}

/// The hash after four blocks.
#[inline(always)]
fn after_four(key: &HashKey, before: u128, four: &[u8; 64]) -> u128
    ensures { block_bits result
        ≡ ghash (block_bits key.now) (block_bits before) (first_chunks 16 4 four.now) }
{
    key.times_four(
        u8x16::from_array(before.to_be_bytes()) ^ u8x16::from_slice(four),
        u8x16::from_slice(&four[16..]),
        u8x16::from_slice(&four[32..]),
        u8x16::from_slice(&four[48..]),
    )
}

/// The same, a block at a time.
fn absorbed_by_one(key: &HashKey, before: u128, octets: &[u8]) -> u128
    ensures { block_bits result
        ≡ ghash (block_bits key.now) (block_bits before) (blocks_of (padded octets.now)) }
{
    let (blocks, rest) = octets.as_chunks::<16>();
    let mut value = before;
    for block in blocks {
        value = multiplied(key, value ^ u128::from_be_bytes(*block));
    }
    if !rest.is_empty() {
        value = multiplied(key, value ^ padded_block(rest));
    }
    value
}

/// At most 16 octets as a block, padded with zeros.
fn padded_block(octets: &[u8]) -> u128
    requires { length octets.now ≤ 16 }
    ensures { block_octets result ≡ octets.now ++ replicate (16 - length octets.now) 0 }
{
    let mut block = [0; 16];
    block[..octets.len()].copy_from_slice(octets);
    u128::from_be_bytes(block)
}

/// The block of the lengths in bits.
fn lengths(extra: &[u8], ciphertext: &[u8]) -> u128
    requires extra { length extra.now ≤ most_text_octets }
    requires ciphertext { length ciphertext.now ≤ most_text_octets }
    ensures { block_octets result ≡ lengths extra.now ciphertext.now }
{
    (8 * extra.len() as u128) << 64 | 8 * ciphertext.len() as u128
}
