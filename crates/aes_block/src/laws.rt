//! What holds of the cipher under every key.

ghost use Rattle.std.specs.Prelude.{◌≡◌, ◌<◌, ℕ, List};
ghost use Rattle.aes_block.specs.Octet.{inverse, times};
ghost use Rattle.aes_block.specs.Aes.{aes, IsBlock, IsKey};

/// The inverse of an octet, where it has one, is the one octet whose product with it is 1.
pub fn law_inverse_is_the_one_with_product_one()
    ensures zero { inverse 0 ≡ 0 }
    ensures one { (a : ℕ) → 0 < a → a < 256 → times a (inverse a) ≡ 1 }
    ensures only { (a b : ℕ) → a < 256 → b < 256 → times a b ≡ 1 → b ≡ inverse a }
{}

/// The ciphertext of a block is a block.
pub fn law_ciphertexts_are_blocks()
    ensures { (key block : List ℕ) → IsKey key → IsBlock block → IsBlock (aes key block) }
{}

/// Under one key, two blocks with one ciphertext are one block.
pub fn law_one_block_for_one_ciphertext()
    ensures { (key a b : List ℕ) → IsKey key → IsBlock a → IsBlock b
        → aes key a ≡ aes key b → a ≡ b }
{}

/// Under each key, every block is the ciphertext of a block.
pub fn law_every_block_is_a_ciphertext()
    ensures { (key block : List ℕ) → IsKey key → IsBlock block
        → ((text : List ℕ) × IsBlock text × (aes key text ≡ block)) }
{}
