//! Validating a received frame (IEEE Std 802.1AE, clause 14).

ghost use Rattle.std.specs.Prelude.{◌≡◌, ◌≤◌, ◌<◌, ◌↔◌, ◌+◌, ◌^◌, List, ℕ, length, Some, None, IsTrue, is_some, if◌then◌else◌};
ghost use Rattle.std.specs.Bool.{OnTrue, OnFalse};
ghost use Rattle.gcm_core.specs.Gcm.{most_text_octets};
ghost use Rattle.gcm_frames.specs.Sealed.{behind_clear, check_octets, IsSealed, IsSealedFrom, IsSealedFromWith, IsSealedWith, is_sealed_with, is_tag_right_with, opened, opened_with, secure_data, user_data, with_user_data};

use crate::protecting::iv_of;
use crate::tag::Tag;
use aes_block::law_ciphertexts_are_blocks;
use gcm_core::{GcmKey, unseal};

/// The 16 octets of tag behind the secure data.
fn check_of(tag: &Tag, frame: &[u8]) -> [u8; 16]
    requires { tag.now.start + tag.now.len + 16 ≤ length frame.now }
    ensures { result ≡ check_octets tag.now frame.now }
{
    let (_, behind) = frame.split_at(tag.start + tag.len);
    let (check, _) = behind.split_first_chunk::<16>().unwrap();
    *check
}

/// The fields of a frame of which so many octets of enciphered user data stand in clear, as of one
/// whose secure data begins behind them.
fn behind_clear(clear: usize, tag: &Tag) -> Tag
    requires { tag.now.start + tag.now.len < 2 ^ 64 }
    ensures value { result ≡ behind_clear clear tag.now }
    ensures end { result.start + result.len ≡ tag.now.start + tag.now.len }
{
    if !tag.conf {
        return *tag;
    }
    Tag {
        start: tag.start + clear.min(tag.len),
        len: tag.len.saturating_sub(clear),
        ..*tag
    }
}

/// Whether the tag of a frame is right under a key and with an IV.
fn is_tag_right(key: &GcmKey, iv: [u8; 12], tag: &Tag, frame: &[u8]) -> bool
    requires within { tag.now.start + tag.now.len + 16 ≤ length frame.now }
    requires length { length frame.now ≤ most_text_octets }
    ensures { result ≡ is_tag_right_with key.now iv tag.now frame.now }
{
    let check = check_of(tag, frame);
    let end = tag.start + tag.len;
    if tag.conf {
        gcm_core::is_sealed(key, iv, &frame[..tag.start], &frame[tag.start..end], check)
    } else {
        gcm_core::is_sealed(key, iv, &frame[..end], &[], check)
    }
}

/// Whether a frame is sealed under a key, as `validate` finds it, without deciphering: nothing of the
/// frame changes. `tag` is what was read of this frame, which is no longer than GCM takes.
pub fn is_sealed(key: &GcmKey, tag: &Tag, frame: &[u8]) -> bool
    requires within { tag.now.start + tag.now.len + 16 ≤ length frame.now }
    requires length { length frame.now ≤ most_text_octets }
    ensures { result ≡ is_some (opened key.now tag.now frame.now) }
{
    is_tag_right(key, iv_of(tag.sci, tag.pn), tag, frame)
}

/// Whether a frame is sealed under a key with any IV, where the first `clear` octets of enciphered
/// user data, or all of fewer, stand in clear. Nothing of the frame changes. `tag` is what was read of
/// this frame, which is no longer than GCM takes.
pub fn is_sealed_with(key: &GcmKey, iv: [u8; 12], clear: usize, tag: &Tag, frame: &[u8]) -> bool
    requires within { tag.now.start + tag.now.len + 16 ≤ length frame.now }
    requires length { length frame.now ≤ most_text_octets }
    ensures sealed { IsTrue result ↔ IsSealedWith key.now iv clear tag.now frame.now }

    // The same, by the definition that computes.
    ensures exact { result ≡ is_sealed_with key.now iv clear tag.now frame.now }
{
    law_ciphertexts_are_blocks();
    key.law_is_key();
    is_tag_right(key, iv, &behind_clear(clear, tag), frame)
}

/// Whether a frame is sealed under a key. If so, its user data stands in the place of its secure
/// data afterwards; if not, the frame is as it was. `tag` is what was read of this frame, which is no
/// longer than GCM takes. No memory is taken.
pub fn validate(key: &GcmKey, tag: &Tag, frame: &mut [u8]) -> bool
    requires within { tag.now.start + tag.now.len + 16 ≤ length frame.old }
    requires length { length frame.old ≤ most_text_octets }
    ensures sealed { IsTrue result ↔ IsSealed key.now tag.now frame.old }
    ensures plain { OnTrue result ((text : List ℕ) → IsSealedFrom key.now tag.now frame.old text
        → frame.new ≡ with_user_data tag.now frame.old (user_data tag.now frame.old text)) }
    ensures unchanged { OnFalse result (frame.new ≡ frame.old) }

    // The same, by the definition that computes.
    ensures exact { opened key.now tag.now frame.old
        ≡ (if result then Some (secure_data tag.now frame.new) else None) }
{
    open_in_place(key, iv_of(tag.sci, tag.pn), tag, frame)
}

/// Whether a frame is sealed under a key with any IV, where the first `clear` octets of enciphered
/// user data, or all of fewer, stand in clear. If so, its user data stands in the place of its secure
/// data afterwards: the octets in clear as they were, and the others deciphered; if not, the frame is
/// as it was. `tag` is what was read of this frame, which is no longer than GCM takes. No memory is
/// taken.
pub fn validate_with(key: &GcmKey, iv: [u8; 12], clear: usize, tag: &Tag, frame: &mut [u8]) -> bool
    requires within { tag.now.start + tag.now.len + 16 ≤ length frame.old }
    requires length { length frame.old ≤ most_text_octets }
    ensures sealed { IsTrue result ↔ IsSealedWith key.now iv clear tag.now frame.old }
    ensures plain { OnTrue result ((text : List ℕ)
        → IsSealedFromWith key.now iv (behind_clear clear tag.now) frame.old text
        → frame.new ≡ with_user_data (behind_clear clear tag.now) frame.old
        (user_data (behind_clear clear tag.now) frame.old text)) }
    ensures unchanged { OnFalse result (frame.new ≡ frame.old) }
{
    open_in_place(key, iv, &behind_clear(clear, tag), frame)
}

/// Whether a frame is sealed under a key with an IV. If so, what is enciphered stands deciphered in
/// its place afterwards; if not, the frame is as it was.
fn open_in_place(key: &GcmKey, iv: [u8; 12], tag: &Tag, frame: &mut [u8]) -> bool
    requires within { tag.now.start + tag.now.len + 16 ≤ length frame.old }
    requires length { length frame.old ≤ most_text_octets }
    ensures sealed { IsTrue result
        ↔ ((text : List ℕ) × IsSealedFromWith key.now iv tag.now frame.old text) }
    ensures plain { OnTrue result ((text : List ℕ) → IsSealedFromWith key.now iv tag.now frame.old text
        → frame.new ≡ with_user_data tag.now frame.old (user_data tag.now frame.old text)) }
    ensures unchanged { OnFalse result (frame.new ≡ frame.old) }
    ensures exact { opened_with key.now iv tag.now frame.old
        ≡ (if result then Some (secure_data tag.now frame.new) else None) }
{
    law_ciphertexts_are_blocks();
    key.law_is_key();
    let check = check_of(tag, frame);
    let end = tag.start + tag.len;
    if tag.conf {
        let (head, rest) = frame.split_at_mut(tag.start);
        unseal(key, iv, head, &mut rest[..tag.len], check)
    } else {
        unseal(key, iv, &frame[..end], &mut [], check)
    }
}
