//! A station starts again.

ghost use Rattle.std.specs.Prelude.{◌≡◌, [], List, ℕ, false, IfOk, OnOk, OnErr};
ghost use Rattle.lan_base.specs.declared.address.Mi.{Mi};
ghost use Rattle.sak_exchange.specs.Histories.{Keying};
ghost use Rattle.sak_exchange.specs.Outcomes.{dropping};
ghost use Rattle.sak_exchange.specs.Standing.{StandsFor as KeysStandFor};
ghost use Rattle.mka_station.specs.Lives.{Member, Entry};
ghost use Rattle.mka_station.specs.Restart.{ending, lost_server};
ghost use Rattle.mka_station.specs.Standing.{StandsFor, reborn};

use super::{Station, mi_of};
use crate::reaction::Reaction;
use lan_base::Mi;
use peer_lists::PeerTable;
use sak_exchange::{Changes, KeyState};
use std::alloc::AllocError;

impl Station {
    /// The station starts again, with a member identifier from another draw and nothing of this
    /// life but the count of its installs.
    pub fn restart(&mut self, draw: [u8; 16]) -> Result<Reaction, AllocError>
        ensures reaction { (m : Member) (p : List Entry) → StandsFor m self.old p →
            IfOk result (λ r. r ≡ ending m p) }
        ensures stands { (m : Member) (p : List Entry) → StandsFor m self.old p →
            OnOk result (StandsFor (reborn m p draw) self.new []) }
        ensures unchanged { OnErr result (self.new ≡ self.old) }
    {
        let changes = self.dropped()?;
        let mi = mi_of(draw);
        let peers = PeerTable::new(self.alloc, mi, self.sci())?;
        let keys = KeyState::new(self.alloc, mi, self.epochs())?;
        let server = lost(self.server());
        self.peer_view.forget();
        self.mi = mi;
        self.peers = peers;
        self.keys = keys;
        self.server = None;
        self.spoken = None;
        Ok(Reaction {
            heard: None,
            server,
            changes,
            sent: None,
        })
    }

    /// What changes where every key is dropped.
    fn dropped(&self) -> Result<Changes, AllocError>
        ensures { (base : ℕ) (own : Mi) (h : List Keying) →
            KeysStandFor base own false self.now.keys h →
            IfOk result (λ c. c ≡ (dropping h).changes) }
    {
        let mut keys = self.keys().copied(self.alloc)?;
        keys.tick();
        keys.drop_all()
    }
}

/// A server that was elected is elected no more.
fn lost(server: Option<Mi>) -> Option<Option<Mi>>
    ensures { result ≡ lost_server server }
{
    match server {
        Some(_) => Some(None),
        None => None,
    }
}
