//! Look-ups in tables of 16 entries, one for each octet of a vector. A table is a vector too, so
//! that no place in memory is chosen by what is looked up.

ghost use Rattle.std.specs.Prelude.{◌≡◌, map};
ghost use Rattle.aes_block.specs.LookUp.{entry_at};

use std::simd::prelude::*;

/// 16 octets in a vector, as an array has them.
#[derive(Clone, Copy)]
pub struct Row {
    pub lanes: u8x16,
}

/// For each octet the entry at the place that its bits 0 to 3 say, and 0 where its bit 7 is set.
#[inline(always)]
pub fn look_up(table: [u8; 16], at: u8x16) -> u8x16
    ensures { result ≡ map (entry_at table) at }
{
    u8x16::from_array(table).swizzle_dyn(at & u8x16::splat(0x8f))
}
