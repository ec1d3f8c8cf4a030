//! What holds of the wraps under every key encrypting key.

ghost use Rattle.std.specs.Prelude.{◌≡◌, ◌≤◌, List, ℕ};
ghost use Rattle.aes_block.specs.Aes.{IsKey, IsOctets};
ghost use Rattle.key_wrap.specs.Wrap.{wrapped};

use aes_block::{law_ciphertexts_are_blocks, law_one_block_for_one_ciphertext};

/// Under one key encrypting key, no two keys of one length have one wrap.
pub fn law_one_key_for_one_wrap()
    ensures { (kek a b : List ℕ) (n : ℕ) → IsKey kek → 8 ≤ n → IsOctets n a → IsOctets n b
        → wrapped kek a ≡ wrapped kek b → a ≡ b }
{
    law_ciphertexts_are_blocks();
    law_one_block_for_one_ciphertext();
}
