//! Octets derived from a key, in counter mode over CMAC (NIST SP 800-108).

ghost use Rattle.std.specs.Prelude.{◌≡◌};
ghost use Rattle.aes_cmac.specs.Cmac.{cmac};
ghost use Rattle.mka_kdf.specs.Kdf.{derived, input};

use aes_block::Key;
use aes_cmac::Running;

/// Derives 16 octets from a key, for what a label and a context name (NIST SP 800-108, in counter
/// mode).
pub fn derive(key: &Key, label: &[u8; 12], context: &[u8; 16]) -> [u8; 16]
    ensures { result ≡ derived key.now label.now context.now 16 }
{
    block(key, 1, label, context, 128)
}

/// Derives 32 octets, likewise: two blocks.
pub fn derive256(key: &Key, label: &[u8; 12], context: &[u8; 16]) -> [u8; 32]
    ensures { result ≡ derived key.now label.now context.now 32 }
{
    let mut octets = [0; 32];
    let (first, second) = octets.split_at_mut(16);
    first.copy_from_slice(&block(key, 1, label, context, 256));
    second.copy_from_slice(&block(key, 2, label, context, 256));
    octets
}

/// A block of the output, whose length is given in bits.
fn block(key: &Key, number: u8, label: &[u8; 12], context: &[u8; 16], bits: u16) -> [u8; 16]
    ensures { result ≡ cmac key.now (input number label.now context.now bits) }
{
    let mut running = Running::new(key);
    running.update(&[number]);
    running.update(label);
    running.update(&[0]);
    running.update(context);
    running.update(&bits.to_be_bytes());
    running.finish()
}
