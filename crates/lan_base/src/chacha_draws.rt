//! Draws from ChaCha's key stream.

ghost use Rattle.std.specs.Prelude.{◌≡◌, ℕ};
ghost use Rattle.lan_base.specs.ChaChaDrawn.{chacha_from};

use crate::draws::Draws;
use rand_chacha::ChaCha20Rng;
use rand_core::SeedableRng;
use rand_core::utils::NextWord;
use std::marker::Model;

/// A supply that draws from the key stream of ChaCha with 20 rounds (RFC 8439, 2.3, with a block
/// counter of 64 bits and a nonce of 64 zero bits): four words a draw, each with its lowest octet
/// first. After 2^66 draws it begins again. Contracts see the seed's words of key and the count of
/// draws so far, modulo 2^66.
#[derive(Drop)]
pub struct ChaChaDraws {
    generator: ChaCha20Rng,
}

impl Model for ChaChaDraws {
    ghost use Rattle.std.specs.Prelude.{◌/◌, ◌%◌, ◌<◌, ◌^◌, ◌≡◌};
    ghost use Rattle.lan_base.specs.ChaChaDrawn.{Drawing};

    ghost Value = { Drawing };

    ghost view = { λ d. record { key = d.generator.key; drawn = d.generator.word_pos / 4 } };

    ghost invariant = { λ d. (d.generator.stream ≡ 0) × (d.generator.word_pos % 4 ≡ 0)
        × (d.generator.word_pos < 2 ^ 68) };
}

impl ChaChaDraws {
    ghost use Rattle.rand_chacha.specs.ChaCha.{key_of};

    /// A supply of this seed, from which nothing was drawn. It takes no memory.
    pub fn new(key: &[u8; 32]) -> Self
        ensures start { result ≡ record { key = key_of key.now; drawn = 0 } }
        ensures draws { (k : ℕ)
            → ⟦<ChaChaDraws as Draws>⟧.nth result k ≡ chacha_from (key_of key.now) 0 k }
    {
        ChaChaDraws {
            generator: ChaCha20Rng::from_seed(*key),
        }
    }
}

impl Draws for ChaChaDraws {
    ghost nth = { λ draws. chacha_from draws.key draws.drawn };

    ghost ends = { λ draws k spent. Prim.cc };

    fn draw(&mut self) -> Option<[u8; 16]> {
        let [a, b, c, d] = self.generator.next_word().to_le_bytes();
        let [e, f, g, h] = self.generator.next_word().to_le_bytes();
        let [i, j, k, l] = self.generator.next_word().to_le_bytes();
        let [m, n, o, p] = self.generator.next_word().to_le_bytes();
        Some([a, b, c, d, e, f, g, h, i, j, k, l, m, n, o, p])
    }
}
