//! What an event finds of the peers.

ghost use Rattle.std.specs.Prelude.{◌≡◌, ◌∷◌, ◌++◌, ℕ, List, true, false, cond, None, is_some, IsTrue, IfOk, OnOk};
ghost use Rattle.lan_base.specs.declared.address.Mi.{Mi};
ghost use Rattle.peer_lists.specs.Table.{Table, StandsFor as PeersStandFor};
ghost use Rattle.peer_lists.specs.Showing.{rows_shown, rows_shown_later};
ghost use Rattle.sak_exchange.specs.Histories.{Keying, ticked};
ghost use Rattle.sak_exchange.specs.Beginning.{leads};
ghost use Rattle.sak_exchange.specs.Outcomes.{beginning};
ghost use Rattle.sak_exchange.specs.Standing.{StandsFor as KeysStandFor};
ghost use Rattle.mka_station.specs.Lives.{Setup, Member, Entry, own, peers_of};
ghost use Rattle.mka_station.specs.Views.{view};
ghost use Rattle.mka_station.specs.Tick.{ended};
ghost use Rattle.mka_station.specs.inside.Found.{candidate_by, IsIn, IsAhead};

use crate::changes::joined;
use crate::config::Config;
use crate::rows::{elected, note_reports};
use lan_base::Mi;
use peer_lists::{PEERS, PeerTable, Row};
use sak_exchange::{Changes, KeyState, Report};
use server_election::Candidate;
use std::alloc::{AllocError, Global};
use std::marker::Model;

/// The peers of a station as its next tick finds them, whatever it is shown: the rows of its peer
/// lists, what the live members say of their keys, and the server that is elected. It has all the
/// memory that it ever needs, so a tick can decide whether it makes a key before it takes any.
#[derive(Drop)]
pub struct PeerView {
    pub rows: Vec<Row>,
    pub reports: Vec<Report>,
    candidates: Vec<Candidate>,
    pub server: Option<Mi>,
    /// Whether it is known that the next tick finds this. Nothing need be looked up then.
    ahead: bool,
}

impl Model for PeerView {
    ghost use Rattle.std.specs.Prelude.{◌≤◌, length, vec_capacity};
    ghost use Rattle.peer_lists.specs.Acceptance.{most_peers};
    ghost use Rattle.mka_station.specs.inside.Found.{Found};

    ghost Value = { Found };

    ghost view = { λ c. record {
      rows = c.rows.items;
      reports = c.reports.items;
      server = c.server;
      ahead = c.ahead;
    } };

    ghost invariant = { λ c. (length c.rows.items ≤ most_peers)
        × (most_peers ≤ vec_capacity c.rows)
        × (most_peers ≤ vec_capacity c.reports)
        × (most_peers ≤ vec_capacity c.candidates) };
}

impl PeerView {
    /// Room for what is found, which has nothing yet.
    pub fn new(alloc: Global) -> Result<PeerView, AllocError>
        ensures { IfOk result (λ c. (setup : Setup) (mi : Mi) (peers : Table) →
            IsAhead setup mi peers c) }
    {
        Ok(PeerView {
            rows: Vec::with_capacity(alloc, PEERS)?,
            reports: Vec::with_capacity(alloc, PEERS)?,
            candidates: Vec::with_capacity(alloc, PEERS)?,
            server: None,
            ahead: false,
        })
    }

    /// What a station of this member identifier finds at the next tick.
    pub fn look_ahead(&mut self, config: &Config, mi: &Mi, peers: &PeerTable)
        requires { IsAhead config.now mi.now peers.now self.old }
        ensures { IsIn (candidate_by config.now mi.now) (rows_shown_later peers.now) self.new }
    {
        if self.is_ahead() {
            return;
        }
        self.look(config, mi, peers);
    }

    /// Whether it is known that the next tick finds this.
    fn is_ahead(&self) -> bool
        ensures { result ≡ self.now.ahead }
    {
        self.ahead
    }

    /// What the next tick finds is looked up.
    fn look(&mut self, config: &Config, mi: &Mi, peers: &PeerTable)
        ensures { IsIn (candidate_by config.now mi.now) (rows_shown_later peers.now) self.new }
    {
        peers.rows_after_tick(&mut self.rows);
        note_reports(&mut self.reports, &self.rows);
        self.server = elected(&mut self.candidates, &candidate(config, mi), &self.rows);
        self.ahead = true;
    }

    /// The tick passed at which this was found, and behind it the peer lists are these. The next
    /// one finds the same where it changes nothing of what they show.
    pub fn pass(&mut self, peers: &PeerTable)
        ensures { (setup : Setup) (mi : Mi) → (IsTrue self.old.ahead →
            IsIn (candidate_by setup mi) (rows_shown peers.now) self.old) →
            IsAhead setup mi peers.now self.new }
    {
        if peers.stays() {
            return;
        }
        self.forget();
    }

    /// The peer lists become others, of whatever station.
    pub fn forget(&mut self)
        ensures { (setup : Setup) (mi : Mi) (peers : Table) → IsAhead setup mi peers self.new }
    {
        self.ahead = false;
    }

    /// The server that it elects now.
    pub fn elect(&mut self, config: &Config, mi: &Mi, peers: &PeerTable) -> Option<Mi>
        ensures server { (m : Member) (p : List Entry) → m.setup ≡ config.now → m.mi ≡ mi.now →
            PeersStandFor (own m) peers.now (peers_of m p) → result ≡ (view m p).server }
        ensures forgotten { (setup : Setup) (mi : Mi) (peers : Table) →
            IsAhead setup mi peers self.new }
    {
        self.ahead = false;
        peers.rows_now(&mut self.rows);
        elected(&mut self.candidates, &candidate(config, mi), &self.rows)
    }
}

/// The station as a candidate.
fn candidate(config: &Config, mi: &Mi) -> Candidate
    ensures { result ≡ candidate_by config.now mi.now }
{
    Candidate {
        mi: *mi,
        sci: config.sci,
        priority: config.priority,
    }
}

/// A tick passes at which this server is elected: keys end, and a station that serves begins its
/// latest key, where that is due.
pub fn pass_keys(
    alloc: Global,
    keys: &mut KeyState,
    server: Option<Mi>,
    serves: bool,
    reports: &[Report],
) -> Result<Changes, AllocError>
    ensures changes { (base : ℕ) (own : Mi) (h : List Keying) →
        KeysStandFor base own false keys.old h →
        IfOk result (λ c. c ≡ ended h server ++ (beginning (ticked (is_some server) ∷ h)
        (cond serves (leads (ticked (is_some server) ∷ h) reports.now) None)).changes) }
    ensures stands { (base : ℕ) (own : Mi) (h : List Keying) →
        KeysStandFor base own false keys.old h →
        OnOk result (KeysStandFor base own false keys.new
        (beginning (ticked (is_some server) ∷ h)
        (cond serves (leads (ticked (is_some server) ∷ h) reports.now) None)).past) }
    ensures epochs { keys.new.epochs ≡ keys.old.epochs }
{
    keys.tick();
    let ended = end_keys(keys, server)?;
    let led = lead(alloc, keys, serves, reports)?;
    joined(ended, &led)
}

/// After a tick every key is dropped where no server is elected, and else an old key is retired
/// whose time is over.
fn end_keys(keys: &mut KeyState, server: Option<Mi>) -> Result<Changes, AllocError>
    ensures changes { (base : ℕ) (own : Mi) (h : List Keying) →
        KeysStandFor base own true keys.old h →
        IfOk result (λ c. c ≡ ended h server) }
    ensures stands { (base : ℕ) (own : Mi) (h : List Keying) →
        KeysStandFor base own true keys.old h →
        OnOk result (KeysStandFor base own false keys.new (ticked (is_some server) ∷ h)) }
    ensures epochs { keys.new.epochs ≡ keys.old.epochs }
{
    match server {
        Some(_) => keys.retire(),
        None => keys.drop_all(),
    }
}

/// A station that serves begins its latest key, where that is due.
fn lead(
    alloc: Global,
    keys: &mut KeyState,
    serves: bool,
    reports: &[Report],
) -> Result<Changes, AllocError>
    ensures changes { (base : ℕ) (own : Mi) (h : List Keying) →
        KeysStandFor base own false keys.old h →
        IfOk result (λ c. c ≡ (beginning h (cond serves (leads h reports.now) None)).changes) }
    ensures stands { (base : ℕ) (own : Mi) (h : List Keying) →
        KeysStandFor base own false keys.old h →
        OnOk result (KeysStandFor base own false keys.new
        (beginning h (cond serves (leads h reports.now) None)).past) }
    ensures epochs { keys.new.epochs ≡ keys.old.epochs }
{
    if serves {
        keys.lead(reports)
    } else {
        Ok(Changes::new(alloc))
    }
}
