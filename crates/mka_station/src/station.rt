//! One station in one of its lives.

ghost use Rattle.std.specs.Prelude.{◌≡◌, ◌+◌, ◌≤◌, ◌↔◌, [], List, Some, None, IsNone, IsTrue, IfOk, length, min, option_map, cond};
ghost use Rattle.lan_base.specs.Identifiers.{same_mi};
ghost use Rattle.sak_exchange.specs.Held.{held, latest as latest_after, old as old_after, transmitting as transmitting_after};
ghost use Rattle.sak_exchange.specs.Standing.{most_ticks};
ghost use Rattle.peer_lists.specs.Peers.{known, row_at};
ghost use Rattle.mka_station.specs.Lives.{Member, Entry, own, peers_of, keys_of};
ghost use Rattle.mka_station.specs.Announcing.{same_option};
ghost use Rattle.mka_station.specs.Standing.{StandsFor, HasRoom, drawn_mi, born};

mod announcing;
mod hearing;
mod restarting;
mod ticking;

use crate::config::Config;
use crate::peer_view::PeerView;
use crate::shown::{Spoken, is_same_server};
use aes_block::Key;
use lan_base::{Mi, Sci};
use peer_lists::{PeerTable, Row};
use sak_exchange::{HeldKey, KeyState};
use std::alloc::{AllocError, Global};
use std::marker::Model;

/// A station of a group in one of its lives.
#[derive(Drop)]
pub struct Station {
    alloc: Global,
    config: Config,
    mi: Mi,
    /// How many keys it installed, over all its lives.
    epochs: u32,
    peers: PeerTable,
    keys: KeyState,
    /// The elected server.
    server: Option<Mi>,
    /// What was shown at its last announcement.
    spoken: Option<Spoken>,
    /// Room for the peer lists as they are behind a hearing.
    spare: PeerTable,
    /// Room for what an event finds in the peer lists.
    peer_view: PeerView,
}

impl Model for Station {
    ghost use Rattle.mka_station.specs.Standing.{State};
    ghost use Rattle.mka_station.specs.inside.Found.{IsAhead};

    ghost Value = { State };

    ghost view = { λ s. record {
      setup = s.config;
      mi = s.mi;
      epochs = s.epochs;
      peers = s.peers;
      keys = s.keys;
      server = s.server;
      spoken = s.spoken;
    } };

    ghost invariant = { λ s. IsAhead s.config s.mi s.peers s.peer_view };
}

impl Station {
    /// A station's first life, or a life after others in which it installed so many keys. Its
    /// member identifier is the last 12 octets of the draw.
    pub fn start(
        alloc: Global,
        config: Config,
        epochs: u32,
        draw: [u8; 16],
    ) -> Result<Station, AllocError>
        ensures { IfOk result (λ s. StandsFor (born config epochs draw) s []) }
    {
        let mi = mi_of(draw);
        let peers = PeerTable::new(alloc, mi, config.sci)?;
        let keys = KeyState::new(alloc, mi, epochs)?;
        let spare = PeerTable::new(alloc, mi, config.sci)?;
        let peer_view = PeerView::new(alloc)?;
        Ok(Station {
            alloc,
            config,
            mi,
            epochs,
            peers,
            keys,
            server: None,
            spoken: None,
            spare,
            peer_view,
        })
    }

    /// The key encrypting key.
    fn kek(&self) -> &Key
        ensures { result.now ≡ self.now.setup.kek }
    {
        &self.config.group.kek
    }

    /// The keys.
    fn keys(&self) -> &KeyState
        ensures { result.now ≡ self.now.keys }
    {
        &self.keys
    }

    /// The peer lists.
    fn peers(&self) -> &PeerTable
        ensures { result.now ≡ self.now.peers }
    {
        &self.peers
    }

    /// The integrity check key.
    fn ick(&self) -> &Key
        ensures { result.now ≡ self.now.setup.ick }
    {
        &self.config.group.ick
    }

    /// The latest key.
    pub fn latest(&self) -> Option<HeldKey>
        ensures { (m : Member) (p : List Entry) → StandsFor m self.now p →
            result ≡ option_map (held (keys_of m p)) (latest_after (keys_of m p)) }
    {
        self.keys().latest()
    }

    /// The old key.
    pub fn old(&self) -> Option<HeldKey>
        ensures { (m : Member) (p : List Entry) → StandsFor m self.now p →
            result ≡ option_map (held (keys_of m p)) (old_after (keys_of m p)) }
    {
        self.keys().old()
    }

    /// The key under which frames are sent.
    pub fn transmitting(&self) -> Option<HeldKey>
        ensures { (m : Member) (p : List Entry) → StandsFor m self.now p →
            result ≡ option_map (held (keys_of m p)) (transmitting_after (keys_of m p)) }
    {
        self.keys().transmitting()
    }

    /// The station goes on with these keys and this server behind an event, in which a key was
    /// installed or none.
    fn settle(&mut self, keys: KeyState, server: Option<Mi>, installs: bool)
        ensures { self.new ≡ record self.old {
          keys = keys;
          server = server;
          epochs = cond installs (min (self.old.epochs + 1) most_ticks) self.old.epochs;
        } }
    {
        if installs {
            self.epochs = self.epochs.saturating_add(1);
        }
        self.keys = keys;
        self.server = server;
    }

    /// The SCI.
    pub fn sci(&self) -> Sci
        ensures { result ≡ self.now.setup.sci }
    {
        self.config.sci
    }

    /// How many keys the station installed.
    fn epochs(&self) -> u32
        ensures { result ≡ self.now.epochs }
    {
        self.epochs
    }

    /// The server that is elected.
    fn server(&self) -> Option<Mi>
        ensures { result ≡ self.now.server }
    {
        self.server
    }

    /// Whether one more install and one more announcement can be counted, which a tick and a
    /// hearing ask for.
    pub fn has_room(&self) -> bool
        ensures { IsTrue result ↔ HasRoom self.now }
    {
        let few = self.epochs() < u32::MAX && self.peers().last_sent() < u32::MAX;
        few && self.keys().epochs() < u32::MAX
    }

    /// What is known of the member at a place among the peers, in ascending order of member identifier, or
    /// `None` past the last.
    pub fn row(&self, at: usize) -> Option<Row>
        ensures row { (m : Member) (p : List Entry) → StandsFor m self.now p →
            result ≡ row_at (own m) (peers_of m p) at }
        ensures past { (m : Member) (p : List Entry) → StandsFor m self.now p →
            IsNone result ↔ (length (known (own m) (peers_of m p)) ≤ at) }
    {
        self.peers().row(at)
    }

    /// The member identifier of the life.
    pub fn mi(&self) -> &Mi
        ensures { result.now ≡ self.now.mi }
    {
        &self.mi
    }
}

/// The member identifier that a draw gives, at a start and at a restart: its last 12 octets. A
/// caller can ask for it before either.
pub fn mi_of(draw: [u8; 16]) -> Mi
    ensures { result ≡ drawn_mi draw }
{
    let mut octets = [0; 12];
    octets.copy_from_slice(&draw[4..]);
    Mi(octets)
}

/// The elected server, where it is another than before.
fn new_server(before: Option<Mi>, now: Option<Mi>) -> Option<Option<Mi>>
    ensures { result ≡ cond (same_option same_mi before now) None (Some now) }
{
    if is_same_server(before, now) {
        None
    } else {
        Some(now)
    }
}
