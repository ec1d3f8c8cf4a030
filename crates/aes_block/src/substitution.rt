//! SubBytes by look-ups in tables of 16 (FIPS 197, section 5.1.1): in another basis an octet is two
//! elements of a field of 16, and its inverse takes five look-ups.

ghost use Rattle.std.specs.Prelude.{◌≡◌, map};
ghost use Rattle.aes_block.specs.Octet.{sub_octet};
ghost use Rattle.aes_block.specs.inside.Halves.{changed, first_half, second_half, undone};

use crate::look_ups::look_up;
use crate::tables::{
    CONSTANT_OVER, INV_SUB_FIRST, INV_SUB_SECOND, INVERSES, OTHER_BASIS_HIGH, OTHER_BASIS_LOW,
    SUB_FIRST, SUB_SECOND, UNDONE_HIGH, UNDONE_LOW,
};
use std::simd::prelude::*;

/// Each octet in the other basis.
#[inline(always)]
pub fn changed(octets: u8x16) -> u8x16
    ensures { result ≡ map changed octets }
{
    look_up(OTHER_BASIS_LOW, octets & u8x16::splat(15))
        ^ look_up(OTHER_BASIS_HIGH, octets >> u8x16::splat(4))
}

/// The two halves of each octet's inverse, from octets in the other basis.
#[inline(always)]
pub fn inverse_halves(octets: u8x16) -> (u8x16, u8x16)
    ensures first { result.0 ≡ map first_half octets }
    ensures second { result.1 ≡ map second_half octets }
{
    let i = octets >> u8x16::splat(4);
    let k = octets & u8x16::splat(15);
    let ak = look_up(CONSTANT_OVER, k);
    let j = i ^ k;
    let iak = look_up(INVERSES, i) ^ ak;
    let jak = look_up(INVERSES, j) ^ ak;
    (look_up(INVERSES, iak) ^ j, look_up(INVERSES, jak) ^ i)
}

/// SubBytes: the S-box on each octet.
pub fn sub_octets(octets: u8x16) -> u8x16
    ensures { result ≡ map sub_octet octets }
{
    let (first, second) = inverse_halves(changed(octets));
    look_up(SUB_FIRST, first) ^ look_up(SUB_SECOND, second) ^ u8x16::splat(0x63)
}

/// InvSubBytes: the octets in whose place the S-box puts these (5.3.2).
pub fn inv_sub_octets(octets: u8x16) -> u8x16
    ensures { map sub_octet result ≡ octets }
{
    let (first, second) = inverse_halves(undone(octets));
    look_up(INV_SUB_FIRST, first) ^ look_up(INV_SUB_SECOND, second)
}

/// The octets whose affine maps these are, in the other basis.
fn undone(octets: u8x16) -> u8x16
    ensures { result ≡ map undone octets }
{
    look_up(UNDONE_LOW, octets & u8x16::splat(15)) ^ look_up(UNDONE_HIGH, octets >> u8x16::splat(4))
}
