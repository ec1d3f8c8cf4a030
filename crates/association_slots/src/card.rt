//! What a claim needs of a key.
ghost use Rattle.std.specs.Prelude.{◌≡◌, ◌+◌, ◌≤◌, ◌++◌, length, slice_index};
ghost use Rattle.association_slots.specs.Cards.{word_at, octets_of, card_words, card_in};
ghost use Rattle.aes_block.specs.declared.secret.Secret.TheVariants.{S128, S256};

use aes_block::Secret;

/// The key of an epoch, and whether its frames are encrypted or only carry a check value.
#[derive(Clone, Copy, Debug, PartialEq, Eq)]
pub struct Card {
    pub sak: Secret,
    pub conf: bool,
}

impl Card {
    /// The five words that hold it.
    pub(crate) fn words(&self) -> [u64; 5]
        ensures words { result ≡ card_words self.now }
        ensures back { card_in (slice_index result 0) (slice_index result 1) (slice_index result 2)
            (slice_index result 3) (slice_index result 4) ≡ self.now }
    {
        match &self.sak {
            Secret::S128(k) => short_words(k, self.conf),
            Secret::S256(k) => long_words(k, self.conf),
        }
    }

    /// The card that five words hold.
    pub(crate) fn of_words(words: &[u64; 5]) -> Card
        ensures { result ≡ card_in (slice_index words.now 0) (slice_index words.now 1)
            (slice_index words.now 2) (slice_index words.now 3) (slice_index words.now 4) }
    {
        let [a, b, c, d, flags] = *words;
        let sak = if flags / 2 % 2 == 1 {
            Secret::S256(four(a, b, c, d))
        } else {
            Secret::S128(two(a, b))
        };
        Card {
            sak,
            conf: flags % 2 == 1,
        }
    }
}

/// The words of a card with a key of 128 bits.
fn short_words(k: &[u8; 16], conf: bool) -> [u64; 5]
    ensures words { result ≡ card_words (record { sak = S128 k.now; conf = conf }) }
    ensures back { card_in (slice_index result 0) (slice_index result 1) (slice_index result 2)
        (slice_index result 3) (slice_index result 4) ≡ record { sak = S128 k.now; conf = conf } }
{
    let conf = if conf { 1 } else { 0 };
    [word_at(k, 0), word_at(k, 8), 0, 0, conf]
}

/// The words of a card with a key of 256 bits.
fn long_words(k: &[u8; 32], conf: bool) -> [u64; 5]
    ensures words { result ≡ card_words (record { sak = S256 k.now; conf = conf }) }
    ensures back { card_in (slice_index result 0) (slice_index result 1) (slice_index result 2)
        (slice_index result 3) (slice_index result 4) ≡ record { sak = S256 k.now; conf = conf } }
{
    let conf = if conf { 1 } else { 0 };
    [
        word_at(k, 0),
        word_at(k, 8),
        word_at(k, 16),
        word_at(k, 24),
        2 + conf,
    ]
}

/// The word of the eight octets from a place on.
fn word_at(octets: &[u8], place: usize) -> u64
    requires { place + 8 ≤ length octets.now }
    ensures { result ≡ word_at place octets.now }
{
    u64::from_be_bytes([
        octets[place],
        octets[place + 1],
        octets[place + 2],
        octets[place + 3],
        octets[place + 4],
        octets[place + 5],
        octets[place + 6],
        octets[place + 7],
    ])
}

/// The octets of two words.
fn two(a: u64, b: u64) -> [u8; 16]
    ensures { result ≡ octets_of a ++ octets_of b }
{
    let mut octets = [0; 16];
    octets[..8].copy_from_slice(&a.to_be_bytes());
    octets[8..].copy_from_slice(&b.to_be_bytes());
    octets
}

/// The octets of four words.
fn four(a: u64, b: u64, c: u64, d: u64) -> [u8; 32]
    ensures { result ≡ octets_of a ++ octets_of b ++ octets_of c ++ octets_of d }
{
    let mut octets = [0; 32];
    octets[..16].copy_from_slice(&two(a, b));
    octets[16..].copy_from_slice(&two(c, d));
    octets
}
