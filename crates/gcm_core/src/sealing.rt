//! Sealing and unsealing (SP 800-38D, sections 7.1 and 7.2).

ghost use Rattle.std.specs.Prelude.{◌≡◌, ◌↔◌, IsTrue, ◌≤◌, List, ℕ, length};
ghost use Rattle.std.specs.Bool.{OnTrue, OnFalse};
ghost use Rattle.aes_block.specs.Aes.{aes, IsBlock};
ghost use Rattle.gcm_core.specs.Gcm.{first_counter, gcm, gcm_tag, gcm_text, most_text_octets};

use crate::counter::encrypt;
use crate::gcm_key::GcmKey;
use crate::hash::hash_of;
use aes_block::law_ciphertexts_are_blocks;

/// Encrypts `text` in place, and answers the tag of the additional data and of what `text` has
/// become. Neither `extra` nor `text` is longer than 2^36 - 32 octets. Under one key each IV is for
/// one call only: that is the caller's part.
pub fn seal(key: &GcmKey, iv: [u8; 12], extra: &[u8], text: &mut [u8]) -> [u8; 16]
    requires extra { length extra.now ≤ most_text_octets }
    requires text { length text.old ≤ most_text_octets }
    ensures { gcm key.now iv extra.now text.old ≡ (text.new, result) }
{
    encrypt_text(key, &iv, text);
    tag_of(key, &iv, extra, text)
}

/// Whether some text is sealed to these octets and this tag. If so, that text, the only one, stands
/// in `text` afterwards; if not, `text` is as it was. Neither `extra` nor `text` is longer than
/// 2^36 - 32 octets.
pub fn unseal(key: &GcmKey, iv: [u8; 12], extra: &[u8], text: &mut [u8], tag: [u8; 16]) -> bool
    requires extra { length extra.now ≤ most_text_octets }
    requires text { length text.old ≤ most_text_octets }
    ensures opened { OnTrue result (gcm key.now iv extra.now text.new ≡ (text.old, tag)) }
    ensures only { OnTrue result ((plain : List ℕ)
        → gcm key.now iv extra.now plain ≡ (text.old, tag) → plain ≡ text.new) }
    ensures refused { OnFalse result ((plain : List ℕ)
        → gcm key.now iv extra.now plain ≡ (text.old, tag) → ⊥) }
    ensures unchanged { OnFalse result (text.new ≡ text.old) }
{
    let found = tag_of(key, &iv, extra, text);
    if !is_same(&found, &tag) {
        return false;
    }
    encrypt_text(key, &iv, text);
    true
}

/// Whether a ciphertext is sealed with this tag, as `unseal` finds it, without deciphering. Neither
/// `extra` nor `ciphertext` is longer than 2^36 - 32 octets.
pub fn is_sealed(key: &GcmKey, iv: [u8; 12], extra: &[u8], ciphertext: &[u8], tag: [u8; 16]) -> bool
    requires extra { length extra.now ≤ most_text_octets }
    requires ciphertext { length ciphertext.now ≤ most_text_octets }
    ensures { IsTrue result ↔ (gcm_tag key.now iv extra.now ciphertext.now ≡ tag) }
{
    is_same(&tag_of(key, &iv, extra, ciphertext), &tag)
}

/// Encrypts text in place; the same call decrypts it.
fn encrypt_text(key: &GcmKey, iv: &[u8; 12], text: &mut [u8])
    ensures text { text.new ≡ gcm_text key.now iv.now text.old }
    ensures counter { IsBlock (first_counter iv.now) }
{
    encrypt(&key.cipher, iv, 2, text);
}

/// The tag of additional data and ciphertext.
fn tag_of(key: &GcmKey, iv: &[u8; 12], extra: &[u8], ciphertext: &[u8]) -> [u8; 16]
    requires extra { length extra.now ≤ most_text_octets }
    requires ciphertext { length ciphertext.now ≤ most_text_octets }
    ensures tag { result ≡ gcm_tag key.now iv.now extra.now ciphertext.now }
    ensures blocks { (text : List ℕ) → IsBlock text → IsBlock (aes key.now text) }
{
    law_ciphertexts_are_blocks();
    key.cipher.law_is_key();
    let mut tag = hash_of(&key.hash, extra, ciphertext).to_be_bytes();
    encrypt(&key.cipher, iv, 1, &mut tag);
    tag
}

/// Whether two tags are one. They are compared as numbers, so that the first octet that differs
/// ends nothing early.
fn is_same(found: &[u8; 16], tag: &[u8; 16]) -> bool
    ensures { IsTrue result ↔ (found.now ≡ tag.now) }
{
    u128::from_be_bytes(*found) == u128::from_be_bytes(*tag)
}
