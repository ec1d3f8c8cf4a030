//! The CMAC of a message that is there as a whole.

ghost use Rattle.std.specs.Prelude.{◌≡◌};
ghost use Rattle.aes_cmac.specs.Cmac.{cmac};

use crate::block::last_block;
use aes_block::{Key, xored};

/// The CMAC of a message under a key (NIST SP 800-38B, 6.2).
pub fn cmac(key: &Key, message: &[u8]) -> [u8; 16]
    ensures { result ≡ cmac key.now message.now }
{
    let (before, rest) = message.split_at(message.len().saturating_sub(1) / 16 * 16);
    let (blocks, _) = before.as_chunks::<16>();
    let mut chain = [0; 16];
    for block in blocks {
        chain = key.encrypt(xored(&chain, block));
    }
    let mut part = [0; 16];
    part[..rest.len()].copy_from_slice(rest);
    key.encrypt(xored(&chain, &last_block(key, part, rest.len())))
}
