//! Vectors of keys that are derived.

use crate::vectors::answers::{digits_of, refused};
use crate::vectors::fault::VectorFault;
use crate::vectors::octets::{array_of, key_of, octets_of, secret_of};
use mka_kdf::{Group, GroupError, GroupFault, derive, derive256};
use std::alloc::Global;

/// Octets that are derived from a key, for what a label of 12 octets and a context of 16 name (SP
/// 800-108, in counter mode over CMAC).
pub fn derive_octets(alloc: Global, words: &[&str]) -> Result<String, VectorFault> {
    let [key, label, context, bits] = words else {
        return Err(VectorFault::Words);
    };
    let label = array_of(alloc, label)?;
    let context = array_of(alloc, context)?;
    let key = key_of(alloc, key)?;
    match *bits {
        "128" => digits_of(alloc, &derive(&key, &label, &context)),
        "256" => digits_of(alloc, &derive256(&key, &label, &context)),
        _ => Err(VectorFault::Bits),
    }
}

/// The ciphertext of a block under the key encrypting key of a group (IEEE Std 802.1X, 9.3.3), by
/// its CAK and CKN.
pub fn encrypt_by_kek(alloc: Global, words: &[&str]) -> Result<String, VectorFault> {
    let [cak, ckn, block] = words else {
        return Err(VectorFault::Words);
    };
    let block = array_of(alloc, block)?;
    match group_of(alloc, cak, ckn)? {
        Ok(group) => digits_of(alloc, &group.kek.encrypt(block)),
        Err(fault) => refused(alloc, &fault),
    }
}

/// The same under its integrity check key.
pub fn encrypt_by_ick(alloc: Global, words: &[&str]) -> Result<String, VectorFault> {
    let [cak, ckn, block] = words else {
        return Err(VectorFault::Words);
    };
    let block = array_of(alloc, block)?;
    match group_of(alloc, cak, ckn)? {
        Ok(group) => digits_of(alloc, &group.ick.encrypt(block)),
        Err(fault) => refused(alloc, &fault),
    }
}

/// The keys of a group, or why there is no such group.
fn group_of(alloc: Global, cak: &str, ckn: &str) -> Result<Result<Group, GroupFault>, VectorFault> {
    let cak = secret_of(alloc, cak)?;
    let ckn = octets_of(alloc, ckn)?;
    match Group::of(alloc, cak, &ckn) {
        Ok(group) => Ok(Ok(group)),
        Err(GroupError::Refused(fault)) => Ok(Err(fault)),
        Err(GroupError::Memory) => Err(VectorFault::Memory),
    }
}
