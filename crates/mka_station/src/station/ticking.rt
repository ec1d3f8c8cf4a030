//! A tick: the server is elected, keys end, begin or are made, and the station announces itself.

ghost use Rattle.std.specs.Prelude.{◌≡◌, ◌<◌, ◌+◌, ◌^◌, ◌↔◌, ◌&&◌, ◌++◌, ◌∷◌, [], List, ℕ, Bool, true, false, Some, None, Err, IsTrue, IfOk, OnOk, OnErr, OnSome, IfErr, is_none, cond, if◌then◌else◌};
ghost use Rattle.std.specs.List.{list_any};
ghost use Rattle.lan_base.specs.declared.address.Mi.{Mi};
ghost use Rattle.lan_base.specs.Suites.{sak_draws};
ghost use Rattle.aes_block.specs.declared.secret.Secret.{Secret};
ghost use Rattle.peer_lists.specs.Table.{StandsFor as PeersStandFor};
ghost use Rattle.sak_exchange.specs.declared.due.Seen.{Seen};
ghost use Rattle.sak_exchange.specs.Histories.{Keying, ticked};
ghost use Rattle.sak_exchange.specs.Beginning.{leads};
ghost use Rattle.sak_exchange.specs.Making.{makes, made_roster};
ghost use Rattle.sak_exchange.specs.Standing.{StandsFor as KeysStandFor};
ghost use Rattle.mka_station.specs.declared.tick_error.TickError.{TickError};
ghost use Rattle.mka_station.specs.Lives.{Member, Entry, own, peers_of, keys_of};
ghost use Rattle.mka_station.specs.Tick.{tick_turn, install_changes};
ghost use Rattle.mka_station.specs.Drawing.{next_sak, sak_of, draws_at, makes_next, is_short};
ghost use Rattle.mka_station.specs.Standing.{StandsFor, HasRoom};
ghost use Rattle.mka_station.specs.inside.Found.{IsAhead, IsFoundNext};
ghost use Rattle.mka_station.specs.inside.Quiet.{IsQuiet, IsQuietTurn};
ghost use Rattle.mka_station.specs.inside.Reached.{IsTicked};
ghost use Rattle.mka_station.specs.inside.Turns.{made_by, keys_made, IsDue};

use super::announcing::pass_peers;
use super::{Station, new_server};
use crate::changes::joined;
use crate::config::Config;
use crate::next::Ticked;
use crate::peer_view::{PeerView, pass_keys};
use crate::reaction::Reaction;
use crate::rows::{is_one_potential, is_server};
use crate::shown::is_same_server;
use crate::tick_error::TickError;
use aes_block::Secret;
use lan_base::{Draws, Mi, Suite};
use peer_lists::PeerTable;
use sak_exchange::{Changes, Due, KeyState, Seen};
use std::alloc::{AllocError, Global};

impl Station {
    /// A tick: the server is elected, keys end, begin or are made, and the station announces
    /// itself.
    pub fn tick<D: Draws>(&mut self, seen: &Seen, draws: &mut D) -> Result<Reaction, TickError>
        requires room { HasRoom self.old }

        // What happens is the turn of the life's history.
        ensures reaction { (m : Member) (p : List Entry) → StandsFor m self.old p →
            IfOk result (λ r. r
            ≡ (tick_turn m seen.now (sak_of m.setup.suite (D.nth draws.old)) p).reaction) }
        ensures stands { (m : Member) (p : List Entry) → StandsFor m self.old p →
            OnOk result (StandsFor m self.new
            (tick_turn m seen.now (sak_of m.setup.suite (D.nth draws.old)) p).past) }

        // It takes the draws that a key needs which it makes, and else none.
        ensures drawn { (m : Member) (p : List Entry) → StandsFor m self.old p →
            OnOk result ((k : ℕ) →
            D.nth draws.new k ≡ D.nth draws.old (k + draws_at m p seen.now)) }

        // It is refused exactly where a key is made for which there are too few draws.
        ensures spent { (m : Member) (p : List Entry) → StandsFor m self.old p →
            (result ≡ Err TickError.DrawsSpent)
            ↔ IsTrue (is_short m p seen.now (D.nth draws.old)) }
        ensures unchanged { OnErr result (self.new ≡ self.old) }
    {
        let makes = foresee(
            &mut self.peer_view,
            &self.config,
            &self.mi,
            &self.peers,
            &mut self.keys,
            seen,
        );
        if !makes && self.is_quiet(&self.peer_view) {
            return Ok(self.pass_quietly());
        }
        let sak = sak_for(makes, &self.config, draws)?;
        let ticked = self.after_tick(&self.peer_view, seen, sak)?;
        Ok(self.pass(ticked, makes))
    }

    /// Whether a tick that finds this, and makes no key, changes none, elects the server of before, and
    /// announces nothing: a quiet one. It may answer no where it is.
    fn is_quiet(&self, peer_view: &PeerView) -> bool
        ensures { IsTrue result → (base : ℕ) (mi : Mi) (h : List Keying) →
            KeysStandFor base mi false self.now.keys h → IsQuiet self.now peer_view.now h }
    {
        is_same_server(self.server(), peer_view.server)
            && self.keys().stays(peer_view.server.is_some())
            && !self.is_due(peer_view, self.keys())
    }

    /// A quiet tick passes. It takes no memory, and copies no keys.
    fn pass_quietly(&mut self) -> Reaction
        requires room { HasRoom self.old }
        ensures reaction { result ≡ record { heard = None; server = None; changes = []; sent = None } }
        ensures stands { (m : Member) (p : List Entry) (any : Secret) (seen : Seen) (elected : Bool) →
            StandsFor m self.old p → IsQuietTurn m p seen any elected →
            StandsFor m self.new (tick_turn m seen any p).past }
    {
        pass_peers(&mut self.peers, false);
        self.peer_view.pass(&self.peers);
        self.keys.pass_still();
        self.note_spoken(None);
        Reaction {
            heard: None,
            server: None,
            changes: Changes::new(self.alloc),
            sent: None,
        }
    }

    /// What a tick comes to that finds this, with the SAK of the key that it makes, if it makes one.
    fn after_tick(
        &self,
        peer_view: &PeerView,
        seen: &Seen,
        sak: Option<Secret>,
    ) -> Result<Ticked, AllocError>
        requires room { HasRoom self.now }
        ensures { (m : Member) (p : List Entry) (any : Secret) → StandsFor m self.now p →
            IsFoundNext m p peer_view.now → sak ≡ cond (makes_next m p seen.now) (Some any) None →
            IfOk result (IsTicked m p seen.now any) }
    {
        let server = peer_view.server;
        let serves = is_server(server, self.mi());
        let mut keys = self.keys().copied(self.alloc)?;
        let passed = pass_keys(self.alloc, &mut keys, server, serves, &peer_view.reports)?;
        let due = due(&self.config, peer_view, seen);
        let installed = make(self.alloc, &mut keys, &due, sak)?;
        let changes = joined(passed, &installed)?;
        let (sent, shown) = self.say(peer_view, &keys, seen)?;
        Ok(Ticked {
            keys,
            server,
            shown,
            reaction: Reaction {
                heard: None,
                server: new_server(self.server(), server),
                changes,
                sent,
            },
        })
    }

    /// The tick passes, in which a key is installed or none.
    fn pass(&mut self, ticked: Ticked, installs: bool) -> Reaction
        requires room { HasRoom self.old }
        ensures reaction { result ≡ ticked.reaction }
        ensures stands { (m : Member) (p : List Entry) (any : Secret) (seen : Seen) →
            StandsFor m self.old p → installs ≡ makes_next m p seen →
            IsTicked m p seen any ticked →
            StandsFor m self.new (tick_turn m seen any p).past }
    {
        let Ticked {
            keys,
            server,
            shown,
            reaction,
        } = ticked;
        pass_peers(&mut self.peers, shown.is_some());
        self.peer_view.pass(&self.peers);
        self.settle(keys, server, installs);
        self.note_spoken(shown);
        reaction
    }
}

/// What the next tick finds, and whether it makes a key. This takes no memory.
fn foresee(
    peer_view: &mut PeerView,
    config: &Config,
    mi: &Mi,
    peers: &PeerTable,
    keys: &mut KeyState,
    seen: &Seen,
) -> bool
    requires { IsAhead config.now mi.now peers.now peer_view.old }
    ensures ahead { IsAhead config.now mi.now peers.now peer_view.new }
    ensures comes { (m : Member) (p : List Entry) → m.setup ≡ config.now → m.mi ≡ mi.now →
        PeersStandFor (own m) peers.now (peers_of m p) → IsFoundNext m p peer_view.new }
    ensures makes { (m : Member) (p : List Entry) → m.setup ≡ config.now → m.mi ≡ mi.now →
        PeersStandFor (own m) peers.now (peers_of m p) →
        KeysStandFor m.base m.mi false keys.old (keys_of m p) →
        result ≡ makes_next m p seen.now }
    ensures unchanged { keys.new ≡ keys.old }
{
    peer_view.look_ahead(config, mi, peers);
    let serves = is_server(peer_view.server, mi);
    let due = due(config, peer_view, seen);
    is_made(serves, keys, &due)
}

/// The SAK of a key that is made, if one is.
fn sak_for<D: Draws>(
    makes: bool,
    config: &Config,
    draws: &mut D,
) -> Result<Option<Secret>, TickError>
    ensures value { IfOk result (λ s. s
        ≡ (if makes then Some (sak_of config.now.suite (D.nth draws.old)) else None)) }
    ensures taken { OnOk result ((k : ℕ) → D.nth draws.new k
        ≡ D.nth draws.old (k + (if makes then sak_draws config.now.suite else 0))) }
    ensures spent { (result ≡ Err TickError.DrawsSpent)
        ↔ IsTrue (makes && is_none (next_sak config.now.suite (D.nth draws.old))) }
    ensures only { IfErr result (λ e. e ≡ TickError.DrawsSpent) }
{
    if makes {
        Ok(Some(drawn_sak(config.suite, draws).ok_or(TickError::DrawsSpent)?))
    } else {
        Ok(None)
    }
}

/// What decides whether a tick makes a key that finds this.
fn due<'a>(config: &Config, peer_view: &'a PeerView, seen: &Seen) -> Due<'a>
    ensures live { result.live.now ≡ peer_view.now.reports }
    ensures potential { result.potential ≡ list_any (λ r. r.potential) peer_view.now.rows }
    ensures seen { result.seen ≡ seen.now }
    ensures rekey { result.rekey ≡ config.now.rekey }
    ensures conf { result.conf ≡ config.now.conf }
{
    Due {
        live: &peer_view.reports,
        potential: is_one_potential(&peer_view.rows),
        seen: *seen,
        rekey: config.rekey,
        conf: config.conf,
    }
}

/// The SAK of a cipher suite that the next draws give.
fn drawn_sak<D: Draws>(suite: Suite, draws: &mut D) -> Option<Secret>
    ensures value { result ≡ next_sak suite (D.nth draws.old) }
    ensures taken { OnSome result ((k : ℕ) →
        D.nth draws.new k ≡ D.nth draws.old (k + sak_draws suite)) }
{
    match suite {
        Suite::GcmAes128 => Some(Secret::S128(draws.draw()?)),
        Suite::GcmAes256 => {
            let first = draws.draw()?;
            let second = draws.draw()?;
            Some(Secret::S256(both(&first, &second)))
        }
    }
}

/// Two draws as one list.
fn both(first: &[u8; 16], second: &[u8; 16]) -> [u8; 32]
    ensures { result ≡ first.now ++ second.now }
{
    let mut octets = [0; 32];
    let (front, back) = octets.split_at_mut(16);
    front.copy_from_slice(first);
    back.copy_from_slice(second);
    octets
}

/// A key is made under this SAK, if there is one.
fn make(
    alloc: Global,
    keys: &mut KeyState,
    due: &Due<'_>,
    sak: Option<Secret>,
) -> Result<Changes, AllocError>
    requires few { keys.old.epochs + 1 < 2 ^ 32 }
    ensures changes { (base : ℕ) (own : Mi) (h : List Keying) →
        KeysStandFor base own false keys.old h →
        IsDue sak (makes h due.now.live.now due.now.potential due.now.seen due.now.rekey) →
        IfOk result (λ c. c ≡ install_changes h (Some (made_roster own due.now.live.now))
        (made_by base own h due.now.conf sak)) }
    ensures stands { (base : ℕ) (own : Mi) (h : List Keying) →
        KeysStandFor base own false keys.old h →
        IsDue sak (makes h due.now.live.now due.now.potential due.now.seen due.now.rekey) →
        OnOk result (KeysStandFor base own false keys.new (keys_made
        (Some (made_roster own due.now.live.now)) (made_by base own h due.now.conf sak) h)) }
{
    match sak {
        Some(sak) if keys.makes(due) => keys.make(due, sak),
        _ => Ok(Changes::new(alloc)),
    }
}

/// Whether the next tick makes a key. This takes no memory.
fn is_made(serves: bool, keys: &mut KeyState, due: &Due<'_>) -> bool
    ensures value { (base : ℕ) (own : Mi) (h : List Keying) → KeysStandFor base own false keys.old h →
        result ≡ (serves && (is_none (leads (ticked true ∷ h) due.now.live.now)
        && makes (ticked true ∷ h) due.now.live.now due.now.potential due.now.seen due.now.rekey)) }
    ensures unchanged { keys.new ≡ keys.old }
{
    serves && keys.makes_next(due)
}
