//! The sum of two blocks.

ghost use Rattle.std.specs.Prelude.{◌≡◌};
ghost use Rattle.aes_block.specs.Octet.{octets_sum};

/// The sum of two blocks, octet by octet (FIPS 197, section 4.1).
#[inline(always)]
pub fn xored(a: &[u8; 16], b: &[u8; 16]) -> [u8; 16]
    ensures { result ≡ octets_sum a.now b.now }
{
    let mut sum = *a;
    for i in 0..16 {
        sum[i] ^= b[i];
    }
    sum
}
