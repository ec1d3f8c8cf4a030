//! Encryption by counter blocks (SP 800-38D, sections 6.2 and 6.5).

ghost use Rattle.std.specs.Prelude.{◌≡◌, ◌≤◌, length};
ghost use Rattle.aes_block.specs.Octet.{octets_sum};
ghost use Rattle.gcm_core.specs.Gcm.{counter_block, gctr};

use aes_block::{Key, xored};

/// Encrypts octets in place by the counter blocks of an IV from `first` on; the same call decrypts
/// them.
pub(crate) fn encrypt(key: &Key, iv: &[u8; 12], first: u32, octets: &mut [u8])
    ensures { octets.new ≡ gctr key.now (counter_block iv.now first) octets.old }
{
    let whole = octets.len() / 16;
    let mut count = first;
    for i in 0..whole {
        let stream = key.encrypt(counter_block(iv, count));
        mask_block(&mut octets[16 * i..16 * i + 16], &stream);
        count = count.wrapping_add(1);
    }
    if 16 * whole < octets.len() {
        let stream = key.encrypt(counter_block(iv, count));
        mask(&mut octets[16 * whole..], &stream);
    }
}

/// The counter block of an IV and a count of blocks.
fn counter_block(iv: &[u8; 12], count: u32) -> [u8; 16]
    ensures { result ≡ counter_block iv.now count }
{
    let mut block = [0; 16];
    block[..12].copy_from_slice(iv);
    block[12..].copy_from_slice(&count.to_be_bytes());
    block
}

/// Adds a block to 16 octets, bit by bit.
fn mask_block(octets: &mut [u8], block: &[u8; 16])
    requires { length octets.old ≡ 16 }
    ensures { octets.new ≡ octets_sum octets.old block.now }
{
    let mut whole = [0; 16];
    whole.copy_from_slice(octets);
    octets.copy_from_slice(&xored(&whole, block));
}

/// Adds the first octets of a block to at most 16 octets, bit by bit.
fn mask(octets: &mut [u8], block: &[u8; 16])
    requires { length octets.old ≤ 16 }
    ensures { octets.new ≡ octets_sum octets.old block.now }
{
    let mut whole = [0; 16];
    whole[..octets.len()].copy_from_slice(octets);
    octets.copy_from_slice(&xored(&whole, block)[..octets.len()]);
}
