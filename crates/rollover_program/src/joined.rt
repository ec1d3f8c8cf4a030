//! A key text and a capture from two sources.

use crate::key_text::KeyText;
use lan_base::{Failed, Source};

/// A source that gives the octets of a key text, what ends it, and then those of a capture.
#[derive(Drop)]
pub struct Joined<K: Source + Drop, S: Source + Drop> {
    keys: KeyText<K>,
    capture: S,
}

impl<K: Source + Drop, S: Source + Drop> Joined<K, S> {
    ghost use Rattle.std.specs.Prelude.{◌≡◌, ◌+◌};
    ghost use Rattle.rollover_program.specs.Joined.{joined};

    /// What the source of a key text has left, and that of a capture. Neither is read.
    pub fn new(keys: K, capture: S) -> Joined<K, S>
        ensures left { ⟦<Joined<K, S> as Source>⟧.left result
            ≡ joined (K.left keys) (S.left capture) }
        ensures faults { ⟦<Joined<K, S> as Source>⟧.faults result ≡ K.faults keys + S.faults capture }
    {
        Joined {
            keys: KeyText::new(keys),
            capture,
        }
    }
}

impl<K: Source + Drop, S: Source + Drop> Source for Joined<K, S> {
    ghost use Rattle.std.specs.Prelude.{◌+◌, option_and_then, ⊤};
    ghost use Rattle.lan_base.specs.Told.{before};

    ghost left = { λ j. option_and_then (λ keys. before keys (S.left j.capture))
        (⟦<KeyText<K> as Source>⟧.left j.keys) };

    ghost faults = { λ j. ⟦<KeyText<K> as Source>⟧.faults j.keys + S.faults j.capture };

    // In which turns the two are read is not said.
    ghost Gave = { λ _ _ _. ⊤ };

    fn read(&mut self, into: &mut [u8]) -> Result<usize, Failed> {
        let count = self.keys.read(into)?;
        if count > 0 {
            return Ok(count);
        }
        self.capture.read(into)
    }
}
