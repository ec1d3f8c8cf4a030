//! Vectors of protected frames.

ghost use Rattle.std.specs.Prelude.{◌≤◌, IfOk};
ghost use Rattle.lan_base.specs.Ranges.{IsUserData};

use crate::vectors::answers::{digits_of, fails, refused};
use crate::vectors::fault::VectorFault;
use crate::vectors::octets::{array_of, key_of, octets_of};
use gcm_core::GcmKey;
use gcm_frames::{
    PROTECTION_OCTETS, implied_tag_of, protect, tag_of, validate, validate_with, xpn_iv_of,
};
use lan_base::{AssociationNumber, Mac, Octets, Sci, UserFrame, is_user_data};
use std::alloc::Global;

/// The protected frame of user data (IEEE Std 802.1AE, clauses 9 and 14).
pub fn protect_data(alloc: Global, words: &[&str]) -> Result<String, VectorFault> {
    let [key, sci, an, pn, mode, destination, body] = words else {
        return Err(VectorFault::Words);
    };
    let sci = Sci(array_of(alloc, sci)?);
    let an = an_of(an)?;
    let pn = pn_of(pn)?;
    let conf = is_confidential(mode)?;
    let key = GcmKey::of(key_of(alloc, key)?);
    let user = user_of(alloc, destination, body)?;
    let mut frame = Vec::with_capacity(alloc, user.body.len() + PROTECTION_OCTETS)?;
    protect(&key, sci, an, pn, conf, &user, &mut frame);
    digits_of(alloc, &frame)
}

/// An association number.
fn an_of(word: &str) -> Result<AssociationNumber, VectorFault> {
    let number = word.parse().map_err(|_| VectorFault::Number)?;
    AssociationNumber::of(number).ok_or(VectorFault::Number)
}

/// A packet number.
fn pn_of(word: &str) -> Result<u32, VectorFault>
    ensures { IfOk result (λ pn. 1 ≤ pn) }
{
    match word.parse() {
        Ok(pn @ 1..) => Ok(pn),
        _ => Err(VectorFault::Number),
    }
}

/// Whether user data is enciphered.
fn is_confidential(mode: &str) -> Result<bool, VectorFault> {
    match mode {
        "confidentiality" => Ok(true),
        "integrity" => Ok(false),
        _ => Err(VectorFault::Mode),
    }
}

/// User data and its destination.
fn user_of(alloc: Global, destination: &str, body: &str) -> Result<UserFrame, VectorFault>
    ensures { IfOk result (λ user. IsUserData user.body) }
{
    let destination = Mac(array_of(alloc, destination)?);
    let body = Octets::of(octets_of(alloc, body)?);
    if !is_user_data(body.as_slice()) {
        return Err(VectorFault::UserData);
    }
    Ok(UserFrame { destination, body })
}

/// The user data of a protected frame.
pub fn open(alloc: Global, words: &[&str]) -> Result<String, VectorFault> {
    let [key, frame] = words else {
        return Err(VectorFault::Words);
    };
    let key = GcmKey::of(key_of(alloc, key)?);
    let mut frame = octets_of(alloc, frame)?;
    match tag_of(&frame) {
        Ok(tag) => {
            if !validate(&key, &tag, frame.as_mut_slice()) {
                return fails(alloc);
            }
            digits_of(alloc, &frame[tag.start..tag.start + tag.len])
        }
        Err(refusal) => refused(alloc, &refusal),
    }
}

/// The user data of a frame that is protected under extended packet numbers (IEEE Std 802.1AE, clause
/// 14), with so many octets of it in clear.
pub fn open_xpn(alloc: Global, words: &[&str]) -> Result<String, VectorFault> {
    let [key, ssci, salt, number, clear, frame] = words else {
        return Err(VectorFault::Words);
    };
    let key = GcmKey::of(key_of(alloc, key)?);
    let ssci = ssci.parse().map_err(|_| VectorFault::Number)?;
    let number = number.parse().map_err(|_| VectorFault::Number)?;
    let clear = clear.parse().map_err(|_| VectorFault::Number)?;
    let iv = xpn_iv_of(array_of(alloc, salt)?, ssci, number);
    let mut frame = octets_of(alloc, frame)?;
    match implied_tag_of(&frame) {
        Ok(tag) => {
            if !validate_with(&key, iv, clear, &tag, frame.as_mut_slice()) {
                return fails(alloc);
            }
            digits_of(alloc, &frame[tag.start..tag.start + tag.len])
        }
        Err(refusal) => refused(alloc, &refusal),
    }
}
