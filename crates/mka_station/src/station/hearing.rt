//! A frame is heard: it is judged, and what it says is taken.

ghost use Rattle.std.specs.Prelude.{◌≡◌, ◌<◌, ◌+◌, ◌^◌, ◌∷◌, List, ℕ, false, Ok, Err, IfOk, OnOk, OnErr};
ghost use Rattle.lan_base.specs.declared.address.Mi.{Mi};
ghost use Rattle.peer_lists.specs.Acceptance.{Own};
ghost use Rattle.peer_lists.specs.Histories.{Peering};
ghost use Rattle.peer_lists.specs.Table.{StandsFor as PeersStandFor};
ghost use Rattle.sak_exchange.specs.Histories.{Keying};
ghost use Rattle.sak_exchange.specs.Outcomes.{beginning};
ghost use Rattle.sak_exchange.specs.Standing.{StandsFor as KeysStandFor};
ghost use Rattle.mka_station.specs.declared.verdict.DropReason.{DropReason};
ghost use Rattle.mka_station.specs.Lives.{Member, Entry, heard, own, peers_of};
ghost use Rattle.mka_station.specs.Views.{view};
ghost use Rattle.mka_station.specs.Hearing.{judged, hear_turn, heard_turn, frame_turn, outcome_of, take_changes, key_taken, is_accepted, verdict_of};
ghost use Rattle.mka_station.specs.Standing.{StandsFor, HasRoom};
ghost use Rattle.mka_station.specs.inside.Reached.{IsHeard};
ghost use Rattle.mka_station.specs.inside.Turns.{offered_by, answered, keys_with, followed_by};

use super::{Station, new_server};
use crate::changes::{joined, one_installs};
use crate::judging::judge;
use crate::next::Hearing;
use crate::reaction::Reaction;
use crate::rows::is_server;
use crate::telling::{is_listed, told};
use crate::verdict::{DropReason, Verdict};
use aes_block::Key;
use lan_base::Mi;
use mkpdu_codec::Announcement;
use peer_lists::{Outcome, PeerTable};
use sak_exchange::{Changes, KeyState, Offer};
use std::alloc::{AllocError, Global};
use std::mem::swap;

impl Station {
    /// A frame is heard. One that is dropped by its form, its group's name or its check value
    /// changes nothing.
    pub fn hear(&mut self, frame: &[u8]) -> Result<Reaction, AllocError>
        requires room { HasRoom self.old }
        ensures reaction { (m : Member) (p : List Entry) → StandsFor m self.old p →
            IfOk result (λ r. r ≡ (frame_turn m frame.now p).reaction) }
        ensures stands { (m : Member) (p : List Entry) → StandsFor m self.old p →
            OnOk result (StandsFor m self.new (frame_turn m frame.now p).past) }
        ensures dropped { (r : DropReason) → judged self.old.setup frame.now ≡ Err r →
            self.new ≡ self.old }
        ensures unchanged { OnErr result (self.new ≡ self.old) }
    {
        let judgement = judge(self.alloc, &self.config.group, frame)?;
        self.hear_judged(&judgement)
    }

    /// A frame is heard that was judged for the station's group.
    pub fn hear_judged(
        &mut self,
        judgement: &Result<Announcement, DropReason>,
    ) -> Result<Reaction, AllocError>
        requires room { HasRoom self.old }
        ensures reaction { (m : Member) (p : List Entry) → StandsFor m self.old p →
            IfOk result (λ r. r ≡ (heard_turn m judgement.now p).reaction) }
        ensures stands { (m : Member) (p : List Entry) → StandsFor m self.old p →
            OnOk result (StandsFor m self.new (heard_turn m judgement.now p).past) }
        ensures dropped { (r : DropReason) → judgement.now ≡ Err r → self.new ≡ self.old }
        ensures unchanged { OnErr result (self.new ≡ self.old) }
    {
        match judgement {
            Ok(announcement) => self.hear_announcement(announcement),
            Err(reason) => Ok(Reaction {
                heard: Some(Verdict::Dropped(*reason)),
                server: None,
                changes: Changes::new(self.alloc),
                sent: None,
            }),
        }
    }

    /// An announcement is heard in a frame that is right.
    fn hear_announcement(&mut self, announcement: &Announcement) -> Result<Reaction, AllocError>
        requires room { HasRoom self.old }
        ensures reaction { (m : Member) (p : List Entry) → StandsFor m self.old p →
            IfOk result (λ r. r ≡ (hear_turn m announcement.now p).reaction) }
        ensures stands { (m : Member) (p : List Entry) → StandsFor m self.old p →
            OnOk result (StandsFor m self.new (hear_turn m announcement.now p).past) }
        ensures unchanged { OnErr result (self.new ≡ self.old) }
    {
        let outcome = hear_in(&mut self.spare, &self.peers, &self.mi, announcement);
        let server = self.peer_view.elect(&self.config, &self.mi, &self.spare);
        let heard = self.after_hearing(&self.spare, outcome, server, announcement)?;
        let Hearing {
            keys,
            server,
            installs,
            reaction,
        } = heard;
        swap(&mut self.peers, &mut self.spare);
        self.settle(keys, server, installs);
        Ok(reaction)
    }

    /// What a hearing comes to, behind which peer lists and server are these.
    fn after_hearing(
        &self,
        peers: &PeerTable,
        outcome: Outcome,
        server: Option<Mi>,
        announcement: &Announcement,
    ) -> Result<Hearing, AllocError>
        requires room { HasRoom self.now }
        ensures { (m : Member) (p : List Entry) → StandsFor m self.now p →
            PeersStandFor (own m) peers.now (peers_of m (heard announcement.now ∷ p)) →
            outcome ≡ outcome_of m p announcement.now →
            server ≡ (view m (heard announcement.now ∷ p)).server →
            IfOk result (IsHeard m p announcement.now) }
    {
        let mut keys = self.keys().copied(self.alloc)?;
        let offer = offered(outcome, peers, self.mi(), server, announcement);
        let taken = take(self.alloc, self.kek(), &mut keys, offer)?;
        let followed = follow(self.alloc, &mut keys, outcome, server, announcement)?;
        let installs = one_installs(&taken);
        let changes = joined(taken, &followed)?;
        Ok(Hearing {
            keys,
            server,
            installs,
            reaction: Reaction {
                heard: Some(verdict_of(outcome)),
                server: new_server(self.server(), server),
                changes,
                sent: None,
            },
        })
    }
}

/// An announcement is heard in peer lists that become the same as these first.
fn hear_in(
    spare: &mut PeerTable,
    peers: &PeerTable,
    mi: &Mi,
    announcement: &Announcement,
) -> Outcome
    ensures answer { (m : Member) (p : List Entry) → m.mi ≡ mi.now →
        PeersStandFor (own m) peers.now (peers_of m p) →
        result ≡ outcome_of m p announcement.now }
    ensures stands { (m : Member) (p : List Entry) → m.mi ≡ mi.now →
        PeersStandFor (own m) peers.now (peers_of m p) →
        PeersStandFor (own m) spare.new (peers_of m (heard announcement.now ∷ p)) }
{
    spare.copy_from(peers);
    spare.hear(&told(mi, peers, announcement))
}

/// What hearing comes to, by what the peer lists answer.
fn verdict_of(outcome: Outcome) -> Verdict
    ensures { result ≡ verdict_of outcome }
{
    match outcome {
        Outcome::Vouched => Verdict::Vouched,
        Outcome::Unvouched => Verdict::Unvouched,
        Outcome::Dropped(refusal) => Verdict::Dropped(DropReason::Refused(refusal)),
    }
}

/// The key that an announcement offers that came to this, if it was accepted and gives one.
fn offered(
    outcome: Outcome,
    peers: &PeerTable,
    mi: &Mi,
    server: Option<Mi>,
    announcement: &Announcement,
) -> Option<Offer>
    ensures { (own : Own) (h : List Peering) → PeersStandFor own peers.now h →
        result ≡ offered_by outcome h mi.now server announcement.now }
{
    let Some(given) = announcement.given else {
        return None;
    };
    if !is_accepted(outcome) {
        return None;
    }
    Some(Offer {
        given,
        server: announcement.mi,
        listed: is_listed(mi, peers, announcement.live.as_slice()),
        elected: is_server(server, &announcement.mi),
    })
}

/// Whether what was heard is accepted.
fn is_accepted(outcome: Outcome) -> bool
    ensures { result ≡ is_accepted outcome }
{
    match outcome {
        Outcome::Vouched | Outcome::Unvouched => true,
        Outcome::Dropped(_) => false,
    }
}

/// A key that is offered is taken, or told why not.
fn take(
    alloc: Global,
    kek: &Key,
    keys: &mut KeyState,
    offer: Option<Offer>,
) -> Result<Changes, AllocError>
    requires few { keys.old.epochs + 1 < 2 ^ 32 }
    ensures changes { (base : ℕ) (own : Mi) (h : List Keying) →
        KeysStandFor base own false keys.old h →
        IfOk result (λ c. c ≡ take_changes h offer (answered base kek.now h offer)) }
    ensures stands { (base : ℕ) (own : Mi) (h : List Keying) →
        KeysStandFor base own false keys.old h →
        OnOk result (KeysStandFor base own false keys.new
        (keys_with (key_taken (answered base kek.now h offer)) h)) }
{
    match offer {
        Some(offer) => keys.take(&offer, kek),
        None => Ok(Changes::new(alloc)),
    }
}

/// The latest key begins, where the elected server says in a vouched announcement that it transmits
/// under it.
fn follow(
    alloc: Global,
    keys: &mut KeyState,
    outcome: Outcome,
    server: Option<Mi>,
    announcement: &Announcement,
) -> Result<Changes, AllocError>
    ensures changes { (base : ℕ) (own : Mi) (h : List Keying) →
        KeysStandFor base own false keys.old h →
        IfOk result (λ c. c
        ≡ (beginning h (followed_by outcome server announcement.now h)).changes) }
    ensures stands { (base : ℕ) (own : Mi) (h : List Keying) →
        KeysStandFor base own false keys.old h →
        OnOk result (KeysStandFor base own false keys.new
        (beginning h (followed_by outcome server announcement.now h)).past) }
{
    match (outcome, &announcement.uses) {
        (Outcome::Vouched, Some(uses)) if is_server(server, &announcement.mi) => keys.follow(uses),
        _ => Ok(Changes::new(alloc)),
    }
}
