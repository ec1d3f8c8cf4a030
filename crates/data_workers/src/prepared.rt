//! A key that is prepared once for the frames that come under it one after the other.

ghost use Rattle.std.specs.Prelude.{◌≡◌, true, IfSome};
ghost use Rattle.aes_block.specs.Secrets.{secret_octets};

use aes_block::{Key, Secret};
use gcm_core::GcmKey;
use std::marker::Model;

/// The prepared key of a SAK. Contracts see it as the SAK's octets.
#[derive(Drop)]
pub(crate) struct PreparedKey {
    sak: Secret,
    key: GcmKey,
}

impl Model for PreparedKey {
    ghost use Rattle.std.specs.Prelude.{List, ℕ, ◌≡◌};
    ghost use Rattle.aes_block.specs.Secrets.{secret_octets};

    ghost Value = { List ℕ };

    ghost view = { λ k. k.key };

    ghost invariant = { λ k. k.key ≡ secret_octets k.sak };
}

impl PreparedKey {
    /// The key of a SAK, prepared.
    fn of(sak: Secret) -> PreparedKey
        ensures { result ≡ secret_octets sak }
    {
        let key = GcmKey::of(Key::of(&sak));
        PreparedKey { sak, key }
    }

    /// The key, ready for frames.
    pub fn key(&self) -> &GcmKey
        ensures { result.now ≡ self.now }
    {
        &self.key
    }
}

/// The key of a SAK, ready for frames: the one that was prepared last, where it is that SAK's, and
/// else a new one, which is kept in its place.
pub(crate) fn key_for(last: &mut Option<PreparedKey>, sak: Secret) -> &GcmKey
    ensures { result.now ≡ secret_octets sak }
{
    if !is_for(last, sak) {
        *last = None;
    }
    last.get_or_insert_with(|| PreparedKey::of(sak)).key()
}

/// Whether the key that was prepared last is that of a SAK.
fn is_for(last: &Option<PreparedKey>, sak: Secret) -> bool
    ensures { result ≡ true → IfSome last.now (λ key. key ≡ secret_octets sak) }
{
    match last {
        Some(prepared) => prepared.sak.octets() == sak.octets(),
        None => false,
    }
}
