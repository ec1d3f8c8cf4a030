//! Operations on blocks of 16 octets.

ghost use Rattle.std.specs.Prelude.{◌≡◌, ◌<◌, ◌≤◌, take};
ghost use Rattle.aes_cmac.specs.Cmac.{doubled, doubled_bits, last_block, padded_part};

use aes_block::{Key, xored};

/// A block doubled in the field of 2 ^ 128 elements (NIST SP 800-38B, 6.1).
#[tactic(auto, unfolding(crate::specs::Cmac::doubled))]
fn doubled(block: [u8; 16]) -> [u8; 16]
    ensures { result ≡ doubled block }
{
    doubled_bits(u128::from_be_bytes(block)).to_be_bytes()
}

/// The bits of a block doubled: the highest one, which falls out, is multiplied and not asked for,
/// so that the time it takes tells nothing of it.
fn doubled_bits(bits: u128) -> u128
    ensures { result ≡ doubled_bits bits }
{
    (bits << 1) ^ ((bits >> 127) * 0x87)
}

/// The last block of a message, of which these octets are there (NIST SP 800-38B, 6.2).
pub fn last_block(key: &Key, block: [u8; 16], filled: usize) -> [u8; 16]
    requires { filled ≤ 16 }
    ensures { result ≡ last_block key.now (take filled block) }
{
    let first_subkey = doubled(key.encrypt([0; 16]));
    if filled == 16 {
        xored(&block, &first_subkey)
    } else {
        xored(&padded_part(block, filled), &doubled(first_subkey))
    }
}

/// The first octets of a block, padded to a whole block (NIST SP 800-38B, 6.2).
fn padded_part(mut block: [u8; 16], filled: usize) -> [u8; 16]
    requires { filled < 16 }
    ensures { result ≡ padded_part (take filled block) }
{
    block[filled] = 0x80;
    block[filled + 1..].fill(0);
    block
}
