//! A key of GCM-AES, prepared once.

ghost use Rattle.std.specs.Prelude.{◌≡◌};
ghost use Rattle.gcm_core.specs.Blocks.{block_octets};

use crate::hash_key::HashKey;
use aes_block::Key;
use std::marker::Model;

/// A key, prepared for sealing and unsealing: its round keys, and the rows of its hash key.
/// Contracts see it as the key's octets.
#[derive(Drop)]
pub struct GcmKey {
    pub(crate) cipher: Key,
    pub(crate) hash: HashKey,
}

impl Model for GcmKey {
    ghost use Rattle.std.specs.Prelude.{List, ℕ, ◌≡◌};
    ghost use Rattle.gcm_core.specs.Blocks.{block_bits};
    ghost use Rattle.gcm_core.specs.Gcm.{hash_key};

    ghost Value = { List ℕ };

    ghost view = { λ k. k.cipher };

    ghost invariant = { λ k. block_bits k.hash ≡ hash_key k.cipher };
}

impl GcmKey {
    ghost use Rattle.std.specs.Prelude.{◌≡◌};
    ghost use Rattle.aes_block.specs.Aes.{IsKey};

    /// The key, prepared (SP 800-38D, 7.1, step 1).
    pub fn of(cipher: Key) -> GcmKey
        ensures { result ≡ cipher }
    {
        let hash = HashKey::of(number_of(cipher.encrypt([0; 16])));
        GcmKey { cipher, hash }
    }

    /// The key has as many octets as a key of AES.
    #[inline(always)]
    pub fn law_is_key(&self)
        ensures { IsKey self.now }
    {
        self.cipher.law_is_key();
    }
}

/// A block as a number.
fn number_of(block: [u8; 16]) -> u128
    ensures { block_octets result ≡ block }
{
    u128::from_be_bytes(block)
}
