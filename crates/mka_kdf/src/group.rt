//! The keys of a group, from its CAK and CKN (IEEE Std 802.1X, 9.3.3).

ghost use Rattle.std.specs.Prelude.{◌≡◌, ◌↔◌, length, IfOk};
ghost use Rattle.lan_base.specs.Ranges.{IsCkn};
ghost use Rattle.mka_kdf.specs.declared.group.GroupError.TheVariants as errors;
ghost use Rattle.mka_kdf.specs.declared.group.GroupFault.TheVariants.{CknLength};
ghost use Rattle.mka_kdf.specs.Kdf.{HasWrongLength, context_of, derived, ick_of, kek_of};
ghost use Rattle.aes_block.specs.Secrets.{secret_octets};

use crate::derivation::{derive, derive256};
use aes_block::{Key, Secret};
use lan_base::{Octets, is_ckn};
use std::alloc::{AllocError, Global};
use thiserror::Error;

/// The label of the key encrypting key.
const KEK_LABEL: [u8; 12] = *b"IEEE8021 KEK";

/// The label of the integrity check key.
const ICK_LABEL: [u8; 12] = *b"IEEE8021 ICK";

/// Why there is no such group.
#[derive(Clone, Copy, Debug, PartialEq, Eq, Error)]
pub enum GroupFault {
    /// The name of the connectivity association key has no octet, or more than 32.
    #[error("the CKN must have 1 to 32 octets")]
    CknLength,
}

/// Why there are no keys of a group.
#[derive(Clone, Copy, Debug, PartialEq, Eq, Error)]
pub enum GroupError {
    /// There is no such group.
    #[error("{0}")]
    Refused(GroupFault),
    /// Memory ran out, which says nothing of the group.
    #[error("out of memory")]
    Memory,
}

impl From<AllocError> for GroupError {
    ghost from_gives = { λ _ e. e ≡ errors.Memory };

    fn from(_: AllocError) -> Self {
        GroupError::Memory
    }
}

/// The keys of a group of stations that have one connectivity association key (CAK): its name
/// (CKN), the key encrypting key and the integrity check key (IEEE Std 802.1X, 9.3.3).
#[derive(Debug, Drop)]
pub struct Group {
    pub ckn: Octets,
    pub kek: Key,
    pub ick: Key,
    /// The name has 1 to 32 octets.
    pub ghost name_length: { IsCkn ckn },
}

impl Group {
    /// The group of a CAK under its name.
    pub fn of(alloc: Global, cak: Secret, ckn: &[u8]) -> Result<Self, GroupError>
        ensures name { IfOk result (λ group. group.ckn ≡ ckn.now) }
        ensures kek { IfOk result (λ group. group.kek ≡ kek_of (secret_octets cak) ckn.now) }
        ensures ick { IfOk result (λ group. group.ick ≡ ick_of (secret_octets cak) ckn.now) }
        ensures length { (result ≡ Err (errors.Refused CknLength)) ↔ HasWrongLength ckn.now }
    {
        if !is_ckn(ckn) {
            return Err(GroupError::Refused(GroupFault::CknLength));
        }
        let context = context_of(ckn);
        Ok(Group {
            ckn: Octets::from_slice(alloc, ckn)?,
            kek: derived_key(&cak, &KEK_LABEL, &context),
            ick: derived_key(&cak, &ICK_LABEL, &context),
        })
    }
}

/// The key of a group that a label names, of the length of its CAK.
fn derived_key(cak: &Secret, label: &[u8; 12], context: &[u8; 16]) -> Key
    ensures { let octets = secret_octets cak.now in
        result ≡ derived octets label.now context.now (length octets) }
{
    match cak {
        Secret::S128(octets) => derived_128(octets, label, context),
        Secret::S256(octets) => derived_256(octets, label, context),
    }
}

/// The same, of a CAK of 128 bits.
fn derived_128(cak: &[u8; 16], label: &[u8; 12], context: &[u8; 16]) -> Key
    ensures { result ≡ derived cak.now label.now context.now (length cak.now) }
{
    Key::k128(&derive(&Key::k128(cak), label, context))
}

/// The same, of a CAK of 256 bits.
fn derived_256(cak: &[u8; 32], label: &[u8; 12], context: &[u8; 16]) -> Key
    ensures { result ≡ derived cak.now label.now context.now (length cak.now) }
{
    Key::k256(&derive256(&Key::k256(cak), label, context))
}

/// 16 octets of a CKN from its start, and zeros where it is shorter.
fn context_of(ckn: &[u8]) -> [u8; 16]
    ensures { result ≡ context_of ckn.now }
{
    let mut context = [0; 16];
    let len = ckn.len().min(16);
    context[..len].copy_from_slice(&ckn[..len]);
    context
}
