//! Keys that are offered.

ghost use Rattle.std.specs.Prelude.{◌≡◌};
ghost use Rattle.sak_exchange.specs.Unwrapping.{unwrapped};

use aes_block::{Key, Secret};
use key_wrap::{unwrap, unwrap256};
use lan_base::{KeyId, Mi};
use mkpdu_codec::{ConfidentialityOffset, Given, WrappedKey};

/// A key that an accepted announcement gives.
#[derive(Clone, Copy)]
pub struct Offer {
    pub given: Given,
    /// The announcer's member identifier.
    pub server: Mi,
    /// Whether its Live Peer List has the station under a recent message number.
    pub listed: bool,
    /// Whether the announcer is the elected server.
    pub elected: bool,
}

impl Offer {
    ghost use Rattle.std.specs.Prelude.{◌≡◌};
    ghost use Rattle.sak_exchange.specs.Taking.{encrypts, leaves_none, is_supported, offered_id};
    ghost use Rattle.sak_exchange.specs.Unwrapping.{given_sak};

    /// The key's identifier.
    pub(crate) fn id(&self) -> KeyId
        ensures { result ≡ offered_id self.now }
    {
        KeyId {
            server: self.server,
            number: self.given.number,
        }
    }

    /// Whether frames under it are encrypted.
    pub(crate) fn encrypts(&self) -> bool
        ensures { result ≡ encrypts self.now.given.offset }
    {
        self.given.offset != ConfidentialityOffset::None
    }

    /// Whether no octets of such frames stay in the clear.
    pub(crate) fn leaves_none(&self) -> bool
        ensures { result ≡ leaves_none self.now.given.offset }
    {
        match self.given.offset {
            ConfidentialityOffset::None | ConfidentialityOffset::Octets0 => true,
            ConfidentialityOffset::Octets30 | ConfidentialityOffset::Octets50 => false,
        }
    }

    /// Whether the station has its cipher suite.
    pub(crate) fn is_supported(&self) -> bool
        ensures { result ≡ is_supported self.now.given.key }
    {
        match self.given.key {
            WrappedKey::Aes128(_) | WrappedKey::Aes256(_) => true,
            WrappedKey::Xpn128(_) | WrappedKey::Xpn256(_) | WrappedKey::Other => false,
        }
    }

    /// The SAK, if what was given is a wrap of one.
    pub(crate) fn sak(&self, kek: &Key) -> Option<Secret>
        ensures { result ≡ given_sak kek.now self.now.given.key }
    {
        match &self.given.key {
            WrappedKey::Aes128(octets) => unwrapped128(kek, octets).map(Secret::S128),
            WrappedKey::Aes256(octets) => unwrapped256(kek, octets).map(Secret::S256),
            WrappedKey::Xpn128(_) | WrappedKey::Xpn256(_) | WrappedKey::Other => None,
        }
    }
}

/// The key of 128 bits whose wrap this is, if there is one.
fn unwrapped128(kek: &Key, octets: &[u8; 24]) -> Option<[u8; 16]>
    ensures { result ≡ unwrapped 16 kek.now octets.now }
{
    unwrap(kek, octets)
}

/// The key of 256 bits whose wrap this is, if there is one.
fn unwrapped256(kek: &Key, octets: &[u8; 40]) -> Option<[u8; 32]>
    ensures { result ≡ unwrapped 32 kek.now octets.now }
{
    unwrap256(kek, octets)
}
