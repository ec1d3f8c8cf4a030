//! What a station says of its keys, and the frame of an announcement.

ghost use Rattle.std.specs.Prelude.{◌≡◌, ◌++◌, ◌&&◌, ℕ, List, false, not, IfOk, IfSome};
ghost use Rattle.std.specs.List.{list_all, list_any};
ghost use Rattle.lan_base.specs.declared.address.Mi.{Mi};
ghost use Rattle.aes_cmac.specs.Cmac.{cmac};
ghost use Rattle.mkpdu_codec.specs.Written.{written, IsWritable, IsWritableKey};
ghost use Rattle.sak_exchange.specs.Histories.{Keying};
ghost use Rattle.sak_exchange.specs.Held.{latest, old};
ghost use Rattle.sak_exchange.specs.Making.{is_in_roster};
ghost use Rattle.sak_exchange.specs.Reports.{names, reports as is_reported};
ghost use Rattle.sak_exchange.specs.Standing.{StandsFor};
ghost use Rattle.mka_station.specs.Announcing.{use_of, uses_with, uses_of, offset, given_as, wrapped_key};
ghost use Rattle.mka_station.specs.inside.Saying.{given_after, lowest_by, is_given_to};

use crate::shown::{id_of, is_same_key, key_of};
use aes_block::Secret;
use aes_cmac::cmac;
use key_wrap::{wrap, wrap256};
use lan_base::{AssociationNumber, KeyId, Mi, Octets};
use mkpdu_codec::{Announcement, ConfidentialityOffset, Given, KeyUse, Uses, WrappedKey, write};
use sak_exchange::{Key, KeyState, Report, Seen};
use std::alloc::{AllocError, Global};

/// The lowest acceptable packet numbers that a tick is shown, and the keys that they are of.
#[derive(Clone, Copy)]
pub struct Lowest {
    pub latest: Option<Key>,
    pub old: Option<Key>,
    pub seen: Seen,
}

impl Lowest {
    /// What a tick is shown while these keys are held.
    pub fn of(keys: &KeyState, seen: &Seen) -> Lowest
        ensures { (base : ℕ) (own : Mi) (h : List Keying) → StandsFor base own false keys.now h →
            result ≡ record { latest = latest h; old = old h; seen = seen.now } }
    {
        Lowest {
            latest: key_of(keys.latest()),
            old: key_of(keys.old()),
            seen: *seen,
        }
    }

    /// The number under a key: 1 for one that is new.
    fn under(&self, key: &Key) -> u32
        ensures { result ≡ lowest_by self.now key.now }
    {
        if is_same_key(id_of(self.latest), Some(key.id)) {
            self.seen.latest
        } else if is_same_key(id_of(self.old), Some(key.id)) {
            self.seen.old
        } else {
            1
        }
    }
}

/// What is said of the keys that are held, if one is.
pub fn uses(keys: &KeyState, lowest: &Lowest) -> Option<Uses>
    ensures { (base : ℕ) (own : Mi) (h : List Keying) → StandsFor base own false keys.now h →
        result ≡ uses_of (lowest_by lowest.now) h }
{
    uses_with(
        key_of(keys.transmitting()),
        lowest,
        key_of(keys.latest()),
        key_of(keys.old()),
    )
}

/// What is said of a latest key and an old one, if one of them is held. One key transmits.
fn uses_with(
    transmitting: Option<Key>,
    lowest: &Lowest,
    latest: Option<Key>,
    old: Option<Key>,
) -> Option<Uses>
    ensures { result ≡ uses_with transmitting (lowest_by lowest.now) latest old }
{
    if latest.is_none() && old.is_none() {
        return None;
    }
    Some(Uses {
        latest: use_of(transmitting, lowest, latest),
        old: use_of(transmitting, lowest, old),
    })
}

/// What is said of a key, or that there is none.
fn use_of(transmitting: Option<Key>, lowest: &Lowest, key: Option<Key>) -> KeyUse
    ensures { result ≡ use_of transmitting (lowest_by lowest.now) key }
{
    match key {
        Some(key) => KeyUse {
            server: key.id.server,
            number: key.id.number,
            an: key.an,
            tx: is_same_key(id_of(transmitting), Some(key.id)),
            rx: true,
            lowest: lowest.under(&key),
        },
        None => KeyUse {
            server: Mi([0; 12]),
            number: 0,
            an: AssociationNumber::An0,
            tx: false,
            rx: false,
            lowest: 0,
        },
    }
}

/// The latest key of a station, if it serves and gives the key to these live members.
pub fn given(kek: &aes_block::Key, serves: bool, live: &[Report], keys: &KeyState) -> Option<Given>
    ensures value { (base : ℕ) (own : Mi) (h : List Keying) → StandsFor base own false keys.now h →
        result ≡ given_after kek.now serves live.now h }
    ensures writable { IfSome result (λ g. IsWritableKey g.key) }
{
    if !serves {
        return None;
    }
    let Some(key) = key_of(keys.latest()) else {
        return None;
    };
    if !is_given(keys, live, &key.id) {
        return None;
    }
    Some(given_as(kek, &key))
}

/// A key as it is given.
fn given_as(kek: &aes_block::Key, key: &Key) -> Given
    ensures value { result ≡ given_as kek.now key.now }
    ensures writable { IsWritableKey result.key }
{
    Given {
        an: key.an,
        offset: offset(key),
        number: key.id.number,
        key: wrapped_key(kek, &key.sak),
    }
}

/// A SAK, wrapped under the key encrypting key.
fn wrapped_key(kek: &aes_block::Key, sak: &Secret) -> WrappedKey
    ensures value { result ≡ wrapped_key kek.now sak.now }
    ensures writable { IsWritableKey result }
{
    match sak {
        Secret::S128(sak) => WrappedKey::Aes128(wrap(kek, sak)),
        Secret::S256(sak) => WrappedKey::Aes256(wrap256(kek, sak)),
    }
}

/// The confidentiality offset of a key.
fn offset(key: &Key) -> ConfidentialityOffset
    ensures { result ≡ offset key.now }
{
    if key.conf {
        ConfidentialityOffset::Octets0
    } else {
        ConfidentialityOffset::None
    }
}

/// Whether all live members are in the latest key's roster, and one of them does not report it.
fn is_given(keys: &KeyState, live: &[Report], id: &KeyId) -> bool
    ensures { (base : ℕ) (own : Mi) (h : List Keying) → StandsFor base own false keys.now h →
        result ≡ is_given_to h live.now id.now }
{
    are_in_roster(keys, live) && is_one_silent(live, id)
}

/// Whether one of these members does not say that it receives under the key.
fn is_one_silent(live: &[Report], id: &KeyId) -> bool
    ensures { result ≡ list_any (λ r. not (is_reported id.now r.uses)) live.now }
{
    live.iter().any(|report| !is_reported(report, id))
}

/// Whether all live members are in the latest key's roster.
fn are_in_roster(keys: &KeyState, live: &[Report]) -> bool
    ensures { (base : ℕ) (own : Mi) (h : List Keying) → StandsFor base own false keys.now h →
        result ≡ list_all (λ r. is_in_roster h r.mi) live.now }
{
    for report in live {
        if !keys.in_roster(&report.mi) {
            return false;
        }
    }
    true
}

/// Whether a live member says that it receives under the key.
fn is_reported(report: &Report, id: &KeyId) -> bool
    ensures { result ≡ is_reported id.now report.now.uses }
{
    match &report.uses {
        Some(uses) => is_received(&uses.latest, id) || is_received(&uses.old, id),
        None => false,
    }
}

/// Whether a use says that its announcer receives under the key.
fn is_received(used: &KeyUse, id: &KeyId) -> bool
    ensures { result ≡ (names id.now used.now && used.now.rx) }
{
    used.server == id.server && used.number == id.number && used.rx
}

/// The frame of an announcement, with its check value.
pub fn frame(
    alloc: Global,
    announcement: &Announcement,
    ick: &aes_block::Key,
) -> Result<Octets, AllocError>
    requires { IsWritable announcement.now }
    ensures { IfOk result (λ o. o
        ≡ written announcement.now ++ cmac ick.now (written announcement.now)) }
{
    let mut octets = Vec::new(alloc);
    write(announcement, &mut octets)?;
    let check = cmac(ick, &octets);
    octets.extend_from_slice(&check)?;
    Ok(Octets::of(octets))
}
