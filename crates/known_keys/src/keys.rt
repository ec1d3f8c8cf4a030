//! The different SAKs in the order in which they became known.

ghost use Rattle.std.specs.Prelude.{◌≡◌, ◌↔◌, ◌<◌, [], List, length, Some, Err, IfOk};
ghost use Rattle.aes_block.specs.declared.secret.Secret.{Secret};
ghost use Rattle.known_keys.specs.Numbered.{most_keys, with_key};
ghost use Rattle.known_keys.specs.Maps.{AreKept};
ghost use Rattle.known_keys.specs.inside.Steps.{IsKeyed};
ghost use Rattle.known_keys.specs.declared.fault.KeyError.TheVariants.{TooManyKeys};

use crate::fault::KeyError;
use crate::sak_numbers::SakNumbers;
use aes_block::{Key, Secret};
use gcm_core::GcmKey;
use std::alloc::Global;
use std::marker::Model;

/// At most so many keys become known.
const MOST_KEYS: usize = 4096;

/// The keys, each prepared once, and the number of each SAK. Contracts see the octets of the keys in
/// order and the entries of the numbers.
#[derive(Drop)]
pub struct Keys {
    prepared: Vec<GcmKey>,
    numbers: SakNumbers,
}

impl Model for Keys {
    ghost use Rattle.known_keys.specs.Maps.{Keyed};

    ghost Value = { Keyed };

    ghost view = { λ k. record { prepared = k.prepared.items; numbers = k.numbers } };
}

impl Keys {
    /// No key. No memory is taken.
    pub fn new(alloc: Global) -> Keys
        ensures { result ≡ record { prepared = []; numbers = record { narrow = []; wide = [] } } }
    {
        Keys {
            prepared: Vec::new(alloc),
            numbers: SakNumbers::new(alloc),
        }
    }

    /// The keys in the order of their numbers, prepared.
    pub fn prepared(&self) -> &[GcmKey]
        ensures { result.now ≡ self.now.prepared }
    {
        &self.prepared
    }

    /// The number of a SAK, which is one of the keys from now on. Where it would be one too many,
    /// all stays as it was.
    pub fn number(&mut self, sak: Secret) -> Result<u32, KeyError>
        ensures keyed { (saks : List Secret) → AreKept saks self.old
            → IfOk result (λ number. IsKeyed saks sak number self.new) }
        ensures full { (saks : List Secret) → AreKept saks self.old
            → (result ≡ Err TooManyKeys) ↔ (most_keys < length (with_key saks (Some sak))) }
        ensures kept { result ≡ Err TooManyKeys → self.new ≡ self.old }
    {
        if let Some(number) = self.numbers.number(&sak) {
            return Ok(number);
        }
        if self.prepared.len() >= MOST_KEYS {
            return Err(KeyError::TooManyKeys);
        }
        let number = self.prepared.len() as u32 + 1;
        self.prepared.push(GcmKey::of(Key::of(&sak)))?;
        self.numbers.put(&sak, number)?;
        Ok(number)
    }
}
