//! Each cipher, done and undone, under keys and on data that are made of one octet, so that the
//! addresses of runs with different octets can be compared.

ghost use Rattle.std.specs.Prelude.{IsTrue};

use aes_block::Key;
use aes_cmac::{Running, cmac};
use gcm_core::{GcmKey, seal, unseal};
use key_wrap::{unwrap, wrap};

/// Whether under the keys of 128 bits and of 256, of which each octet is this one, blocks and
/// wrapped keys and sealed texts come back, and a message has one value whole and in pieces.
pub fn come_back(octet: u8) -> bool
    ensures { IsTrue result }
{
    all_come_back(Key::k128(&[octet; 16]), octet) && all_come_back(Key::k256(&[octet; 32]), octet)
}

/// The same under a key.
fn all_come_back(key: Key, octet: u8) -> bool
    ensures { IsTrue result }
{
    is_deciphered(&key, octet)
        && is_unwrapped(&key, octet)
        && has_one_value(&key, octet)
        && is_unsealed(&GcmKey::of(key), octet)
}

/// A block is deciphered to what was enciphered.
fn is_deciphered(key: &Key, octet: u8) -> bool
    ensures { IsTrue result }
{
    let block = [octet; 16];
    key.decrypt(key.encrypt(block)) == block
}

/// A wrapped key is unwrapped.
fn is_unwrapped(kek: &Key, octet: u8) -> bool
    ensures { IsTrue result }
{
    let key = [octet; 16];
    unwrap(kek, &wrap(kek, &key)) == Some(key)
}

/// A message has one value whole and in pieces.
fn has_one_value(key: &Key, octet: u8) -> bool
    ensures { IsTrue result }
{
    let message = [octet; 100];
    let mut running = Running::new(key);
    running.update(&message[..40]);
    running.update(&message[40..]);
    running.finish() == cmac(key, &message)
}

/// A sealed text is unsealed: four blocks at once, two blocks, and four octets more.
fn is_unsealed(key: &GcmKey, octet: u8) -> bool
    ensures { IsTrue result }
{
    let iv = [octet; 12];
    let extra = [octet; 28];
    let plain = [octet; 100];
    let mut text = plain;
    let tag = seal(key, iv, &extra, &mut text);
    unseal(key, iv, &extra, &mut text, tag) && text == plain
}
