//! What a change of calls for an announcement.

ghost use Rattle.std.specs.Prelude.{◌≡◌, ◌&&◌, ℕ, List, true, false, map, option_map, ◌||◌, IfOk};
ghost use Rattle.lan_base.specs.declared.address.Mi.{Mi};
ghost use Rattle.lan_base.specs.Identifiers.{same_mi};
ghost use Rattle.sak_exchange.specs.Histories.{Keying};
ghost use Rattle.sak_exchange.specs.Held.{latest, old, transmitting};
ghost use Rattle.sak_exchange.specs.Standing.{StandsFor};
ghost use Rattle.mka_station.specs.Announcing.{Shown, id_of, same_option, same_key, same_shown};
ghost use Rattle.mka_station.specs.inside.Due.{shown_by, same_keys, is_due_now};

use crate::rows::{are_live, are_potential, live_members, potential_members};
use lan_base::{HELLO_TIME, KeyId, Mi};
use peer_lists::Row;
use sak_exchange::{HeldKey, Key, KeyState};
use std::alloc::{AllocError, Global};
use std::marker::Model;

/// What a change of calls for an announcement: who is live and who potential, the elected server,
/// and which keys are held and transmit.
#[derive(Drop)]
pub struct Shown {
    live: Vec<Mi>,
    potential: Vec<Mi>,
    server: Option<Mi>,
    latest: Option<KeyId>,
    old: Option<KeyId>,
    transmitting: Option<KeyId>,
}

impl Model for Shown {
    ghost use Rattle.mka_station.specs.Announcing.{Shown as Shows};

    ghost Value = { Shows };

    ghost view = { λ s. record {
      live = s.live.items;
      potential = s.potential.items;
      server = s.server;
      latest = s.latest;
      old = s.old;
      transmitting = s.transmitting;
    } };
}

impl Shown {
    /// What rows, a server and keys show.
    pub fn of(
        alloc: Global,
        rows: &[Row],
        server: Option<Mi>,
        keys: &KeyState,
    ) -> Result<Shown, AllocError>
        ensures { (base : ℕ) (own : Mi) (h : List Keying) → StandsFor base own false keys.now h →
            IfOk result (λ s. s ≡ shown_by rows.now server h) }
    {
        Ok(Shown {
            live: live_members(alloc, rows)?,
            potential: potential_members(alloc, rows)?,
            server,
            latest: id_of(key_of(keys.latest())),
            old: id_of(key_of(keys.old())),
            transmitting: id_of(key_of(keys.transmitting())),
        })
    }

    /// Whether rows, a server and keys show this.
    fn is_of(&self, rows: &[Row], server: Option<Mi>, keys: &KeyState) -> bool
        ensures { (base : ℕ) (own : Mi) (h : List Keying) → StandsFor base own false keys.now h →
            result ≡ same_shown (shown_by rows.now server h) self.now }
    {
        are_live(&self.live, rows)
            && are_potential(&self.potential, rows)
            && is_same_server(server, self.server)
            && self.is_of_keys(keys)
    }

    /// Whether these keys are shown.
    fn is_of_keys(&self, keys: &KeyState) -> bool
        ensures { (base : ℕ) (own : Mi) (h : List Keying) → StandsFor base own false keys.now h →
            result ≡ same_keys h self.now }
    {
        let latest = id_of(key_of(keys.latest()));
        let old = id_of(key_of(keys.old()));
        let transmitting = id_of(key_of(keys.transmitting()));
        self.is_of_ids(latest, old, transmitting)
    }

    /// Whether the keys of these identifiers are shown.
    fn is_of_ids(
        &self,
        latest: Option<KeyId>,
        old: Option<KeyId>,
        transmitting: Option<KeyId>,
    ) -> bool
        ensures { result ≡ (same_option same_key latest self.now.latest
            && (same_option same_key old self.now.old
            && same_option same_key transmitting self.now.transmitting)) }
    {
        is_same_key(latest, self.latest)
            && is_same_key(old, self.old)
            && is_same_key(transmitting, self.transmitting)
    }
}

/// What was shown at the last announcement.
#[derive(Drop)]
pub struct Spoken {
    pub shown: Shown,
    /// How many ticks ago it was sent, as far as they can be counted.
    pub since: u32,
}

impl Spoken {
    /// Whether a station that shows this a tick later announces itself.
    pub fn is_due(&self, rows: &[Row], server: Option<Mi>, keys: &KeyState) -> bool
        ensures { (base : ℕ) (own : Mi) (h : List Keying) → StandsFor base own false keys.now h →
            result ≡ is_due_now self.now (shown_by rows.now server h) }
    {
        self.since.saturating_add(1) >= HELLO_TIME || !self.shown.is_of(rows, server, keys)
    }
}

/// The key that is held.
pub fn key_of(held: Option<HeldKey>) -> Option<Key>
    ensures { result ≡ option_map (λ h. h.key) held }
{
    held.map(|held| held.key)
}

/// The identifier of a key.
pub fn id_of(key: Option<Key>) -> Option<KeyId>
    ensures { result ≡ id_of key }
{
    key.map(|key| key.id)
}

/// Whether two servers are the same, or there is none.
pub fn is_same_server(one: Option<Mi>, other: Option<Mi>) -> bool
    ensures { result ≡ same_option same_mi one other }
{
    match (one, other) {
        (Some(one), Some(other)) => one == other,
        (None, None) => true,
        _ => false,
    }
}

/// Whether two keys have the same identifier, or there is none.
pub fn is_same_key(one: Option<KeyId>, other: Option<KeyId>) -> bool
    ensures { result ≡ same_option same_key one other }
{
    match (one, other) {
        (Some(one), Some(other)) => one.server == other.server && one.number == other.number,
        (None, None) => true,
        _ => false,
    }
}
