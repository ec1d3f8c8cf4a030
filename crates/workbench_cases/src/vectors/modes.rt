//! Vectors of AES and of its modes.

use crate::vectors::answers::{Digits, digits_of, fails};
use crate::vectors::fault::VectorFault;
use crate::vectors::octets::{array_of, key_of, octets_of};
use aes_cmac::cmac;
use gcm_core::{GcmKey, seal, unseal};
use key_wrap::{unwrap, unwrap256, wrap, wrap256};
use std::alloc::Global;

/// The ciphertext of a block (FIPS 197).
pub fn encrypt(alloc: Global, words: &[&str]) -> Result<String, VectorFault> {
    let [key, block] = words else {
        return Err(VectorFault::Words);
    };
    let block = array_of(alloc, block)?;
    digits_of(alloc, &key_of(alloc, key)?.encrypt(block))
}

/// The block of a ciphertext.
pub fn decrypt(alloc: Global, words: &[&str]) -> Result<String, VectorFault> {
    let [key, block] = words else {
        return Err(VectorFault::Words);
    };
    let block = array_of(alloc, block)?;
    digits_of(alloc, &key_of(alloc, key)?.decrypt(block))
}

/// The CMAC of a message (SP 800-38B).
pub fn check(alloc: Global, words: &[&str]) -> Result<String, VectorFault> {
    let [key, message] = words else {
        return Err(VectorFault::Words);
    };
    let message = octets_of(alloc, message)?;
    digits_of(alloc, &cmac(&key_of(alloc, key)?, &message))
}

/// The ciphertext of a text and its tag (SP 800-38D).
pub fn seal_text(alloc: Global, words: &[&str]) -> Result<String, VectorFault> {
    let [key, iv, extra, text] = words else {
        return Err(VectorFault::Words);
    };
    let iv = array_of(alloc, iv)?;
    let key = GcmKey::of(key_of(alloc, key)?);
    let extra = octets_of(alloc, extra)?;
    let mut text = octets_of(alloc, text)?;
    let tag = seal(&key, iv, &extra, text.as_mut_slice());
    Ok(format!(in alloc; "{} {}", Digits(&text), Digits(&tag))?)
}

/// The text of a ciphertext and its tag.
pub fn unseal_text(alloc: Global, words: &[&str]) -> Result<String, VectorFault> {
    let [key, iv, extra, text, tag] = words else {
        return Err(VectorFault::Words);
    };
    let iv = array_of(alloc, iv)?;
    let tag = array_of(alloc, tag)?;
    let key = GcmKey::of(key_of(alloc, key)?);
    let extra = octets_of(alloc, extra)?;
    let mut text = octets_of(alloc, text)?;
    if !unseal(&key, iv, &extra, text.as_mut_slice(), tag) {
        return fails(alloc);
    }
    digits_of(alloc, &text)
}

/// The wrap of a key of 128 or 256 bits (RFC 3394).
pub fn wrap_key(alloc: Global, words: &[&str]) -> Result<String, VectorFault> {
    let [kek, key] = words else {
        return Err(VectorFault::Words);
    };
    let kek = key_of(alloc, kek)?;
    let key = octets_of(alloc, key)?;
    if let Ok(short) = <[u8; 16]>::try_from(key.as_slice()) {
        return digits_of(alloc, &wrap(&kek, &short));
    }
    match <[u8; 32]>::try_from(key.as_slice()) {
        Ok(long) => digits_of(alloc, &wrap256(&kek, &long)),
        Err(_) => Err(VectorFault::Key),
    }
}

/// The key of 128 or 256 bits that was wrapped.
pub fn unwrap_key(alloc: Global, words: &[&str]) -> Result<String, VectorFault> {
    let [kek, wrapped] = words else {
        return Err(VectorFault::Words);
    };
    let kek = key_of(alloc, kek)?;
    let wrapped = octets_of(alloc, wrapped)?;
    if let Ok(short) = <[u8; 24]>::try_from(wrapped.as_slice()) {
        return unwrapped(alloc, unwrap(&kek, &short));
    }
    match <[u8; 40]>::try_from(wrapped.as_slice()) {
        Ok(long) => unwrapped(alloc, unwrap256(&kek, &long)),
        Err(_) => Err(VectorFault::Wrap),
    }
}

/// The answer of an unwrapped key.
fn unwrapped<const N: usize>(alloc: Global, key: Option<[u8; N]>) -> Result<String, VectorFault> {
    match key {
        Some(key) => digits_of(alloc, &key),
        None => fails(alloc),
    }
}
