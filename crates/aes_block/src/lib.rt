//! The block cipher AES (FIPS 197), without a place in memory that a key or a block decides: the
//! S-box is put together from look-ups in vectors of 16 entries.
#![tactic(auto)]

mod block;
mod encryption;
mod expanded_key;
mod expansion;
mod forward_rounds;
mod inverse_rounds;
mod key;
mod laws;
mod look_ups;
mod secret;
mod substitution;
mod tables;

pub use block::xored;
pub use key::Key;
pub use laws::{
    law_ciphertexts_are_blocks, law_every_block_is_a_ciphertext,
    law_inverse_is_the_one_with_product_one, law_one_block_for_one_ciphertext,
};
pub use look_ups::{Row, look_up};
pub use secret::Secret;
