//! Laws of the key text.

ghost use Rattle.std.specs.Prelude.{◌≡◌, ℕ, List, Ok};
ghost use Rattle.key_ring.specs.Rings.{AreKeyed, Ring, ring_in};

use aes_block::law_ciphertexts_are_blocks;

/// The key encrypting key of each group that a key text has is one of AES: so of what is wrapped under
/// it one key alone is unwrapped.
pub fn law_groups_are_keyed()
    ensures { (text : List ℕ) (ring : Ring) → ring_in text ≡ Ok ring → AreKeyed ring }
{
    law_ciphertexts_are_blocks();
}
