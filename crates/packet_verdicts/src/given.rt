//! What a right frame of key agreement gives, and what it shows of the keys in use (IEEE Std 802.1X,
//! clause 11).

ghost use Rattle.std.specs.Prelude.{◌≡◌, ◌≤◌, Some, length};
ghost use Rattle.std.specs.Prelude.{◌-◌, slice_get};
ghost use Rattle.packet_verdicts.specs.Given.{Gives, IsGift, IsSak, shown_key, shown_keys};
ghost use Rattle.packet_verdicts.specs.Groups.{GroupKeys};

use crate::groups::Groups;
use aes_block::{Key, Secret};
use key_wrap::{unwrap, unwrap256};
use lan_base::{AssociationNumber, KeyId, Mi};
use mkpdu_codec::{Announcement, ConfidentialityOffset, Given, KeyUse, WrappedKey};

/// Why a Distributed SAK gives no key.
#[derive(Clone, Copy, Debug, PartialEq, Eq)]
pub enum NoSak {
    /// It is for another cipher suite than GCM-AES-128 and GCM-AES-256.
    OtherSuite,
    /// No key has this wrap under the group's key encrypting key.
    WrongWrap,
}

/// What a Distributed SAK says: the key's identifier, its association number and confidentiality
/// offset, and the key.
#[derive(Clone, Copy, Debug, PartialEq, Eq)]
pub struct Gift {
    pub id: KeyId,
    pub an: AssociationNumber,
    pub offset: ConfidentialityOffset,
    pub sak: Result<Secret, NoSak>,
}

/// A key that a SAK Use shows, with which its announcer transmits or receives.
#[derive(Clone, Copy, Debug, PartialEq, Eq)]
pub struct Shown {
    pub id: KeyId,
    pub an: AssociationNumber,
    pub tx: bool,
    pub rx: bool,
}

/// The latest key and the old one of a SAK Use, where they are shown.
#[derive(Clone, Copy, Debug, PartialEq, Eq)]
pub struct ShownKeys {
    pub latest: Option<Shown>,
    pub old: Option<Shown>,
}

/// What the Distributed SAK of an announcement gives, which is of the group with this number, if it
/// has one.
pub fn given_key(groups: &Groups, group: usize, announcement: &Announcement) -> Option<Gift>
    requires first { 1 ≤ group }
    requires last { group ≤ length groups.now }
    ensures { (keys : GroupKeys) → slice_get groups.now (group - 1) ≡ Some keys
        → Gives keys.kek announcement.now result }
{
    match &announcement.given {
        Some(given) => Some(gift_of(groups.kek(group), announcement.mi, given)),
        None => None,
    }
}

/// What a member gives under a key encrypting key.
fn gift_of(kek: &Key, mi: Mi, given: &Given) -> Gift
    ensures { IsGift kek.now mi given.now result }
{
    Gift {
        id: KeyId {
            server: mi,
            number: given.number,
        },
        an: given.an,
        offset: given.offset,
        sak: sak_of(kek, &given.key),
    }
}

/// The SAK that is given.
fn sak_of(kek: &Key, key: &WrappedKey) -> Result<Secret, NoSak>
    ensures { IsSak kek.now key.now result }
{
    match key {
        WrappedKey::Aes128(octets) => match unwrap(kek, octets) {
            Some(sak) => Ok(Secret::S128(sak)),
            None => Err(NoSak::WrongWrap),
        },
        WrappedKey::Aes256(octets) => match unwrap256(kek, octets) {
            Some(sak) => Ok(Secret::S256(sak)),
            None => Err(NoSak::WrongWrap),
        },
        WrappedKey::Xpn128(_) | WrappedKey::Xpn256(_) | WrappedKey::Other => {
            Err(NoSak::OtherSuite)
        }
    }
}

/// What the SAK Use of an announcement shows.
pub fn shown_keys(announcement: &Announcement) -> ShownKeys
    ensures { result ≡ shown_keys announcement.now.uses }
{
    match &announcement.uses {
        Some(uses) => ShownKeys {
            latest: shown_key(&uses.latest),
            old: shown_key(&uses.old),
        },
        None => ShownKeys {
            latest: None,
            old: None,
        },
    }
}

/// A key, where its announcer transmits or receives with it.
fn shown_key(key: &KeyUse) -> Option<Shown>
    ensures { result ≡ shown_key key.now }
{
    if key.tx || key.rx {
        Some(Shown {
            id: KeyId {
                server: key.server,
                number: key.number,
            },
            an: key.an,
            tx: key.tx,
            rx: key.rx,
        })
    } else {
        None
    }
}
