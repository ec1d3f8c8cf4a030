//! What a station says of itself at a tick, and when.

ghost use Rattle.std.specs.Prelude.{◌≡◌, ◌==◌, ◌<◌, ◌+◌, ◌^◌, ◌&&◌, ◌∷◌, not, nat_lt, List, ℕ, false, Some, None, IfOk, IfSome, option_map, cond, if◌then◌else◌};
ghost use Rattle.lan_base.specs.declared.address.Mi.{Mi};
ghost use Rattle.mkpdu_codec.specs.Written.{IsWritable, IsWritableKey};
ghost use Rattle.peer_lists.specs.Acceptance.{Own};
ghost use Rattle.peer_lists.specs.Histories.{Peering, ticked, sent, last_sent, may_send};
ghost use Rattle.peer_lists.specs.Table.{StandsFor as PeersStandFor};
ghost use Rattle.peer_lists.specs.Showing.{rows_shown, rows_shown_later};
ghost use Rattle.sak_exchange.specs.Histories.{Keying};
ghost use Rattle.sak_exchange.specs.Standing.{StandsFor as KeysStandFor};
ghost use Rattle.server_election.specs.Election.{never_serves};
ghost use Rattle.mka_station.specs.Views.{is_server};
ghost use Rattle.mka_station.specs.Announcing.{frame_of, uses_of};
ghost use Rattle.mka_station.specs.inside.Due.{shown_by, is_due_after};
ghost use Rattle.mka_station.specs.inside.Saying.{announced_by, given_after, is_flagged_by, lowest_by, lowest_of};
ghost use Rattle.mka_station.specs.inside.Turns.{said_by, spoken_after};

use super::Station;
use crate::peer_view::PeerView;
use crate::rows::{is_server, live_peers, potential_peers};
use crate::saying::{Lowest, frame, given, uses};
use crate::shown::{Shown, Spoken};
use lan_base::{Mi, Octets};
use mkpdu_codec::{Announcement, Given, Uses};
use peer_lists::PeerTable;
use sak_exchange::{KeyState, Seen};
use server_election::NEVER;
use std::alloc::AllocError;

impl Station {
    /// The frame that the station sends at the next tick, which finds this, if it announces itself,
    /// and what it shows then.
    pub(super) fn say(
        &self,
        peer_view: &PeerView,
        keys: &KeyState,
        seen: &Seen,
    ) -> Result<(Option<Octets>, Option<Shown>), AllocError>
        requires room { self.now.peers.sent.last + 1 < 2 ^ 32 }
        ensures frame { (base : ℕ) (mi : Mi) (h k : List Keying) →
            KeysStandFor base mi false self.now.keys h → KeysStandFor base mi false keys.now k →
            IfOk result (λ o. o.0 ≡ option_map (frame_of self.now.setup)
            (said_by self.now peer_view.now (self.now.peers.sent.last + 1) (lowest_of h seen.now) k)) }
        ensures shown { (base : ℕ) (mi : Mi) (h k : List Keying) →
            KeysStandFor base mi false self.now.keys h → KeysStandFor base mi false keys.now k →
            IfOk result (λ o. o.1 ≡ option_map (λ a. shown_by peer_view.now.rows peer_view.now.server k)
            (said_by self.now peer_view.now (self.now.peers.sent.last + 1) (lowest_of h seen.now) k)) }
    {
        if !self.is_due(peer_view, keys) {
            return Ok((None, None));
        }
        let lowest = Lowest::of(self.keys(), seen);
        let octets = self.frame_saying(peer_view, self.peers().last_sent() + 1, keys, &lowest)?;
        let shown = Shown::of(self.alloc, &peer_view.rows, peer_view.server, keys)?;
        Ok((Some(octets), Some(shown)))
    }

    /// Whether the station announces itself at the next tick, which finds this.
    pub(super) fn is_due(&self, peer_view: &PeerView, keys: &KeyState) -> bool
        ensures { (base : ℕ) (mi : Mi) (k : List Keying) → KeysStandFor base mi false keys.now k →
            result
            ≡ is_due_after self.now.spoken (shown_by peer_view.now.rows peer_view.now.server k) }
    {
        match &self.spoken {
            Some(spoken) => spoken.is_due(&peer_view.rows, peer_view.server, keys),
            None => true,
        }
    }

    /// The frame of the announcement of a number.
    fn frame_saying(
        &self,
        peer_view: &PeerView,
        mn: u32,
        keys: &KeyState,
        lowest: &Lowest,
    ) -> Result<Octets, AllocError>
        ensures { (base : ℕ) (mi : Mi) (h : List Keying) → KeysStandFor base mi false keys.now h →
            IfOk result (λ o. o ≡ frame_of self.now.setup (announced_by self.now peer_view.now mn
            (uses_of (lowest_by lowest.now) h)
            (given_after self.now.setup.kek (is_server peer_view.now.server self.now.mi)
            peer_view.now.reports h))) }
    {
        let serves = is_server(peer_view.server, self.mi());
        let given = given(self.kek(), serves, &peer_view.reports, keys);
        let announcement = self.announcement(peer_view, mn, uses(keys, lowest), given)?;
        frame(self.alloc, &announcement, self.ick())
    }

    /// The announcement of a number, with these uses and what is given.
    fn announcement(
        &self,
        peer_view: &PeerView,
        mn: u32,
        uses: Option<Uses>,
        given: Option<Given>,
    ) -> Result<Announcement, AllocError>
        requires { IfSome given (λ g. IsWritableKey g.key) }
        ensures value { IfOk result (λ a. a ≡ announced_by self.now peer_view.now mn uses given) }
        ensures writable { IfOk result IsWritable }
    {
        Ok(Announcement {
            source: self.config.sci.source(),
            priority: self.config.priority,
            server: self.is_flagged(peer_view.server),
            sci: self.config.sci,
            mi: self.mi,
            mn,
            ckn: self.config.group.ckn.copied(self.alloc)?,
            live: live_peers(self.alloc, &peer_view.rows)?,
            potential: potential_peers(self.alloc, &peer_view.rows)?,
            uses,
            given,
            highs: None,
        })
    }

    /// Whether the key server flag is set, where this server is elected.
    fn is_flagged(&self, server: Option<Mi>) -> bool
        ensures { result ≡ is_flagged_by self.now.setup server self.now.mi }
    {
        if self.config.early_flag && server.is_none() && self.may_serve() {
            true
        } else {
            is_server(server, self.mi())
        }
    }

    /// Whether the station's priority allows it to serve.
    fn may_serve(&self) -> bool
        ensures { result ≡ not (self.now.setup.priority == never_serves) }
    {
        self.config.priority != NEVER
    }

    /// A tick passes, at which this is shown in an announcement, or none is sent.
    pub(super) fn note_spoken(&mut self, shown: Option<Shown>)
        ensures { self.new ≡ record self.old { spoken = spoken_after self.old.spoken shown } }
    {
        if let Some(shown) = shown {
            self.spoken = Some(Spoken { shown, since: 0 });
        } else if let Some(spoken) = &mut self.spoken {
            spoken.since = spoken.since.saturating_add(1);
        }
    }
}

/// A tick passes in the peer lists, and an announcement is sent then or none.
pub(super) fn pass_peers(peers: &mut PeerTable, announced: bool)
    ensures stands { (own : Own) (h : List Peering) → PeersStandFor own peers.old h →
        last_sent h + 1 < 2 ^ 32 → PeersStandFor own peers.new
        (if announced then sent (last_sent h + 1) ∷ ticked ∷ h else ticked ∷ h) }
    ensures shown { rows_shown peers.new ≡ rows_shown_later peers.old }
{
    peers.tick();
    if announced {
        if let Some(mn) = next_number(peers) {
            peers.sent(mn);
        }
    }
}

/// The number of the next announcement, where it can be counted and none was sent since the last
/// tick.
fn next_number(peers: &PeerTable) -> Option<u32>
    ensures { (own : Own) (h : List Peering) → PeersStandFor own peers.now h →
        result
        ≡ cond (may_send h && nat_lt (last_sent h + 1) (2 ^ 32)) (Some (last_sent h + 1)) None }
{
    if peers.may_send() {
        peers.last_sent().checked_add(1)
    } else {
        None
    }
}
