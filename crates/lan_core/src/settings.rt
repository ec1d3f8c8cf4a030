//! What holds for the whole group.

ghost use Rattle.std.specs.Prelude.{◌≡◌, ◌<◌, All, IfOk};
ghost use Rattle.lan_base.specs.Ranges.{IsCkn};
ghost use Rattle.aes_block.specs.Secrets.{secret_octets};
ghost use Rattle.mka_kdf.specs.Kdf.{kek_of, ick_of};
ghost use Rattle.lan_core.specs.Types.{IsSecret, IsSetting};

use aes_block::Secret;
use lan_base::{Octets, Suite};
use mka_kdf::{Group, GroupError, GroupFault};
use std::alloc::{AllocError, Global};

/// What holds for the whole group.
#[derive(Drop)]
pub struct Settings {
    /// The connectivity association key.
    pub cak: Secret,
    /// Its name: 1 to 32 octets.
    pub ckn: Octets,
    /// Whether keys that are made give confidentiality.
    pub conf: bool,
    /// Whether stations have the key server flag also while they have elected nobody.
    pub early_flag: bool,
    /// How far below a sender's next packet number a number may lie.
    pub window: u32,
    /// The packet number from which on a key is spent.
    pub rekey: u32,
    /// The cipher suite of the keys that are made.
    pub suite: Suite,
}

/// What is set up lies in its types, where the name is what it may be. Nothing runs.
pub(crate) fn law_types_are_kept(settings: &Settings)
    requires { IsCkn settings.now.ckn }
    ensures { IsSetting settings.now }
{
    law_a_key_has_its_length(&settings.cak);
    let _name = settings.ckn.as_slice();
    let _window = settings.window;
    let _rekey = settings.rekey;
}

/// A key has as many octets as its kind says. Nothing runs.
fn law_a_key_has_its_length(secret: &Secret)
    ensures { IsSecret secret.now }
{
    match secret {
        Secret::S128(octets) => law_octets_are_small(octets),
        Secret::S256(octets) => law_octets_are_small(octets),
    }
}

/// Each octet is below 256. Nothing runs.
fn law_octets_are_small(octets: &[u8])
    ensures { All (λ octet. octet < 256) octets.now }
{}

/// The keys that the connectivity association key gives.
pub fn group_of(alloc: Global, settings: &Settings) -> Result<Group, AllocError>
    requires named { IsCkn settings.now.ckn }
    ensures ckn { IfOk result (λ group. group.ckn ≡ settings.now.ckn) }
    ensures kek { IfOk result (λ group. group.kek
        ≡ kek_of (secret_octets settings.now.cak) settings.now.ckn) }
    ensures ick { IfOk result (λ group. group.ick
        ≡ ick_of (secret_octets settings.now.cak) settings.now.ckn) }
{
    match Group::of(alloc, settings.cak, settings.ckn.as_slice()) {
        Ok(group) => Ok(group),
        Err(GroupError::Memory) => Err(AllocError),
        Err(GroupError::Refused(GroupFault::CknLength)) => unreachable!(),
    }
}
