//! A hash key, prepared: the rows of its first four powers.

ghost use Rattle.std.specs.Prelude.{◌≡◌, ◌<◌, Bool, List, length};
ghost use Rattle.aes_block.specs.Bits.{bits};
ghost use Rattle.aes_block.specs.Product.{product, sum_of};
ghost use Rattle.gcm_core.specs.Blocks.{block_bits};
ghost use Rattle.gcm_core.specs.Ghash.{reduction};
ghost use Rattle.gcm_core.specs.inside.Rows.{rows_in, rows_of_block, value};
ghost use Rattle.gcm_core.specs.inside.Powers.{AreRows, rows_sum};

use crate::hash_rows::{HashRows, row, rows_of};
use crate::wide_block::{moved_high, moved_low, number, reduced};
use std::marker::Model;
use std::simd::prelude::*;

/// A hash key with the rows of its first four powers. Contracts see it as the hash key.
#[derive(Drop)]
pub struct HashKey {
    key: u128,
    one: HashRows,
    two: HashRows,
    three: HashRows,
    four: HashRows,
}

impl Model for HashKey {
    ghost use Rattle.std.specs.Prelude.{ℕ};
    ghost use Rattle.gcm_core.specs.Blocks.{block_bits};
    ghost use Rattle.gcm_core.specs.inside.Rows.{rows_in};
    ghost use Rattle.gcm_core.specs.inside.Powers.{IsPrepared};

    ghost Value = { ℕ };

    ghost view = { λ k. k.key };

    ghost invariant = { λ k.
        IsPrepared (block_bits k.key) (rows_in k.one.first k.one.last)
        (rows_in k.two.first k.two.last) (rows_in k.three.first k.three.last)
        (rows_in k.four.first k.four.last) };
}

impl HashKey {
    ghost use Rattle.std.specs.Prelude.{◌≡◌};
    ghost use Rattle.aes_block.specs.Bits.{bits};
    ghost use Rattle.aes_block.specs.Product.{product};
    ghost use Rattle.gcm_core.specs.Blocks.{block_bits};
    ghost use Rattle.gcm_core.specs.Ghash.{reduction};
    ghost use Rattle.gcm_core.specs.inside.Powers.{four_powers};

    /// The hash key, prepared.
    pub fn of(h: u128) -> HashKey
        ensures { result ≡ h }
    {
        let one = rows_of(h);
        let second = times(&one, u8x16::from_array(h.to_be_bytes()));
        let third = times(&one, u8x16::from_array(second.to_be_bytes()));
        let fourth = times(&one, u8x16::from_array(third.to_be_bytes()));
        HashKey {
            key: h,
            one,
            two: rows_of(second),
            three: rows_of(third),
            four: rows_of(fourth),
        }
    }

    /// The product of the hash key and a block.
    pub fn times(&self, octets: u8x16) -> u128
        ensures { block_bits result ≡ product reduction (bits octets) (block_bits self.now) }
    {
        times(&self.one, octets)
    }

    /// The sum of the products of four blocks with the fourth power of the hash key, the third, the
    /// second and the first.
    #[inline(always)]
    pub fn times_four(&self, a: u8x16, b: u8x16, c: u8x16, d: u8x16) -> u128
        ensures { block_bits result ≡ four_powers (block_bits self.now) a b c d }
    {
        let (low, high) = sum_of_four(&self.four, &self.three, &self.two, &self.one, a, b, c, d);
        reduced(number(low), number(high))
    }
}

/// The product of a block that has these rows and another.
fn times(rows: &HashRows, octets: u8x16) -> u128
    ensures { (h : List Bool) → length h ≡ 128
        → AreRows h (rows_in rows.now.first rows.now.last)
        → block_bits result ≡ product reduction (bits octets) h }
{
    let mut low = row(rows.first[15].lanes, rows.last[15].lanes, octets);
    let mut high = u8x16::splat(0);
    for i in 0..15usize {
        high = moved_high(low, high);
        low = moved_low(low) ^ row(rows.first[14 - i].lanes, rows.last[14 - i].lanes, octets);
    }
    reduced(number(low), number(high))
}

/// The rows of four blocks, times four others, each an octet further than the one before it, as 32
/// octets.
#[inline(always)]
fn sum_of_four(
    p: &HashRows,
    q: &HashRows,
    r: &HashRows,
    s: &HashRows,
    a: u8x16,
    b: u8x16,
    c: u8x16,
    d: u8x16,
) -> (u8x16, u8x16)
    ensures { value result.0 result.1
        ≡ sum_of (rows_of_block (rows_in p.now.first p.now.last) 16 0 a)
        (sum_of (rows_of_block (rows_in q.now.first q.now.last) 16 0 b)
        (sum_of (rows_of_block (rows_in r.now.first r.now.last) 16 0 c)
        (rows_of_block (rows_in s.now.first s.now.last) 16 0 d))) }
{
    let mut low = four_rows(p, q, r, s, 15, a, b, c, d);
    let mut high = u8x16::splat(0);
    for i in 0..15usize {
        high = moved_high(low, high);
        low = moved_low(low) ^ four_rows(p, q, r, s, 14 - i, a, b, c, d);
    }
    (low, high)
}

/// Row `o` of four tables for four blocks, added.
#[inline(always)]
fn four_rows(
    p: &HashRows,
    q: &HashRows,
    r: &HashRows,
    s: &HashRows,
    o: usize,
    a: u8x16,
    b: u8x16,
    c: u8x16,
    d: u8x16,
) -> u8x16
    requires { o < 16 }
    ensures { result
        ≡ rows_sum (rows_in p.now.first p.now.last) (rows_in q.now.first q.now.last)
        (rows_in r.now.first r.now.last) (rows_in s.now.first s.now.last) a b c d o }
{
    row(p.first[o].lanes, p.last[o].lanes, a)
        ^ (row(q.first[o].lanes, q.last[o].lanes, b)
            ^ (row(r.first[o].lanes, r.last[o].lanes, c)
                ^ row(s.first[o].lanes, s.last[o].lanes, d)))
}
