//! The key that a station sends under, prepared.

ghost use Rattle.std.specs.Prelude.{◌≡◌, ◌≤◌, IfOk, IsTrue};
ghost use Rattle.lan_base.specs.Ranges.{IsUserData};
ghost use Rattle.aes_block.specs.Secrets.{secret_octets};
ghost use Rattle.gcm_frames.specs.Protected.{protected};

use aes_block::Secret;
use gcm_core::GcmKey;
use gcm_frames::{PROTECTION_OCTETS, protect};
use lan_base::{Octets, Sci, UserFrame};
use sak_exchange::Key;
use std::alloc::{AllocError, Global};

/// A secure association key, prepared once for all the frames that are sent under it.
#[derive(Drop)]
pub struct Sender {
    sak: Secret,
    prepared: GcmKey,
    ghost is_prepared: { prepared ≡ secret_octets sak },
}

impl Sender {
    /// The key, prepared.
    pub fn of(sak: &Secret) -> Sender
        ensures { secret_octets result.sak ≡ secret_octets sak.now }
    {
        Sender {
            sak: *sak,
            prepared: GcmKey::of(aes_block::Key::of(sak)),
        }
    }

    /// Whether this is the prepared key.
    pub fn is_of(&self, sak: &Secret) -> bool
        ensures { IsTrue result → secret_octets self.now.sak ≡ secret_octets sak.now }
    {
        self.sak.octets() == sak.octets()
    }

    /// The frame of a user that is sent under a held key with these octets.
    pub fn frame(
        &self,
        alloc: Global,
        sci: Sci,
        key: &Key,
        pn: u32,
        user: &UserFrame,
    ) -> Result<Octets, AllocError>
        requires sak { secret_octets self.now.sak ≡ secret_octets key.now.sak }
        requires pn { 1 ≤ pn }
        requires user { IsUserData user.now.body }
        ensures { IfOk result (λ octets. octets ≡ protected (secret_octets key.now.sak) sci
            key.now.an pn key.now.conf user.now) }
    {
        let mut frame = Vec::with_capacity(alloc, user.body.len() + PROTECTION_OCTETS)?;
        protect(&self.prepared, sci, key.an, pn, key.conf, user, &mut frame);
        Ok(Octets::of(frame))
    }
}
