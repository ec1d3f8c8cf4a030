//! The peer lists of one life of a station.

ghost use Rattle.std.specs.Prelude.{◌≡◌, ◌<◌, ◌≤◌, ◌+◌, ◌&&◌, ◌↔◌, ◌∷◌, [], List, ℕ, length, slice_get, vec_capacity, IfOk, IsNone, IsTrue, OnErr, if◌then◌else◌};
ghost use Rattle.std.specs.Option.{option_or};
ghost use Rattle.std.specs.List.Sorted.{IsSearchInRange};
ghost use Rattle.peer_lists.specs.Histories.{Peering, ticked, sent, heard as heard_entry, recent as recent_after, last_sent as last_sent_in, may_send as may_send_after};
ghost use Rattle.peer_lists.specs.Acceptance.{Own, IsDropped, echo, outcome, most_peers};
ghost use Rattle.peer_lists.specs.Peers.{known, row_at};
ghost use Rattle.peer_lists.specs.Table.{StandsFor};
ghost use Rattle.peer_lists.specs.Showing.{rows_shown, rows_shown_later};
ghost use Rattle.peer_lists.specs.inside.RowChanges.{reason_at, rows_heard};
ghost use Rattle.peer_lists.specs.inside.Countdowns.{is_number_recent};

use crate::PEERS;
use crate::heard::{Heard, Outcome, PeerRefusal, Row};
use crate::places::{age, displace, place_of, remember, show, show_after_tick, shown_at, stay};
use crate::remembered::Remembered;
use crate::sent_numbers::SentNumbers;
use lan_base::{Mi, Sci};
use std::alloc::{AllocError, Global};
use std::marker::Model;

/// Who was heard in one life of a station, and what it sent, as far as either is younger than the
/// life time.
#[derive(Drop)]
pub struct PeerTable {
    mi: Mi,
    sci: Sci,
    rows: Vec<Remembered>,
    sent: SentNumbers,
}

impl Model for PeerTable {
    ghost use Rattle.std.specs.Prelude.{◌≤◌, length, vec_capacity};
    ghost use Rattle.peer_lists.specs.Acceptance.{Own, most_peers};
    ghost use Rattle.peer_lists.specs.Table.{Table};

    ghost Value = { Table };

    ghost view = { λ t. record {
      own = record { mi = t.mi; sci = t.sci };
      rows = t.rows.items;
      sent = t.sent;
    } };

    ghost invariant = { λ t. (length t.rows.items ≤ most_peers)
        × (most_peers ≤ vec_capacity t.rows) };
}

impl PeerTable {
    /// The table of a life that begins. It takes all the memory that the table ever needs, and
    /// answers an error only where there is none.
    pub fn new(alloc: Global, own: Mi, sci: Sci) -> Result<PeerTable, AllocError>
        ensures { IfOk result (λ t. StandsFor (record { mi = own; sci = sci }) t []) }
    {
        Ok(PeerTable {
            mi: own,
            sci,
            rows: Vec::with_capacity(alloc, PEERS)?,
            sent: SentNumbers::none(),
        })
    }

    /// A copy of the table, with all the memory that it ever needs. It answers an error only where
    /// there is none.
    pub fn copied(&self, alloc: Global) -> Result<PeerTable, AllocError>
        ensures { IfOk result (λ t. t ≡ self.now) }
    {
        let mut rows = Vec::with_capacity(alloc, PEERS)?;
        rows.extend_from_slice(&self.rows)?;
        Ok(PeerTable {
            mi: self.mi,
            sci: self.sci,
            rows,
            sent: self.sent,
        })
    }

    /// The table comes to hold what another one holds, in the memory that it has.
    pub fn copy_from(&mut self, other: &PeerTable)
        ensures { self.new ≡ other.now }
    {
        self.mi = other.mi;
        self.sci = other.sci;
        self.sent = other.sent;
        self.rows.clear();
        let _ = self.rows.extend_from_slice(&other.rows);
    }

    /// A tick passes.
    pub fn tick(&mut self)
        ensures stands { (own : Own) (h : List Peering) → StandsFor own self.old h →
            StandsFor own self.new (ticked ∷ h) }
        ensures shown { rows_shown self.new ≡ rows_shown_later self.old }
    {
        self.sent.tick();
        age(&mut self.rows);
    }

    /// The number that the life sent last, 0 before the first.
    pub fn last_sent(&self) -> u32
        ensures value { result ≡ self.now.sent.last }
        ensures counted { (own : Own) (h : List Peering) → StandsFor own self.now h →
            result ≡ last_sent_in h }
    {
        self.sent.last
    }

    /// Whether the life sent nothing since the last tick.
    pub fn may_send(&self) -> bool
        ensures { (own : Own) (h : List Peering) → StandsFor own self.now h →
            result ≡ may_send_after h }
    {
        self.sent.may_send
    }

    /// The life sends its next announcement: its number is one greater than the last one's, or 1
    /// for the first, and none was sent since the last tick.
    pub fn sent(&mut self, mn: u32)
        requires next { (own : Own) (h : List Peering) → StandsFor own self.old h →
            mn ≡ last_sent_in h + 1 }
        requires once { (own : Own) (h : List Peering) → StandsFor own self.old h →
            IsTrue (may_send_after h) }
        ensures stands { (own : Own) (h : List Peering) → StandsFor own self.old h →
            StandsFor own self.new (sent mn ∷ h) }
        ensures shown { rows_shown self.new ≡ rows_shown self.old }
    {
        self.sent.send(mn);
    }

    /// Whether the life sent this number less than the life time ago.
    pub fn recent(&self, mn: u32) -> bool
        ensures { (own : Own) (h : List Peering) → StandsFor own self.now h →
            result ≡ recent_after h mn }
    {
        self.sent.is_recent(mn)
    }

    /// A frame with a right check value is heard, and tells this. A dropped one changes nothing.
    pub fn hear(&mut self, heard: &Heard) -> Outcome
        ensures answer { (own : Own) (h : List Peering) → StandsFor own self.old h →
            result ≡ outcome own h heard.now }
        ensures stands { (own : Own) (h : List Peering) → StandsFor own self.old h →
            StandsFor own self.new (heard_entry heard.now ∷ h) }
        ensures unchanged { IsDropped result → self.new ≡ self.old }
    {
        let place = place_of(self.rows.as_slice(), &heard.mi);
        match self.refusal(heard, place) {
            Some(reason) => Outcome::Dropped(reason),
            None => accepted_as(self.accept(heard, place)),
        }
    }

    /// The reason to drop what is heard, given the place of its member's row.
    fn refusal(&self, heard: &Heard, place: Result<usize, usize>) -> Option<PeerRefusal>
        requires { IsSearchInRange place (length self.now.rows) }
        ensures { result ≡ option_or (echo self.now.own heard.now)
            (reason_at place self.now.rows heard.now) }
    {
        if heard.mi == self.mi || heard.sci == self.sci {
            return Some(PeerRefusal::Echo);
        }
        match place {
            Ok(at) => {
                let kept = self.rows[at].last.told.mn;
                (heard.mn <= kept).then_some(PeerRefusal::OldNumber { kept })
            }
            Err(_) => (self.rows.len() >= PEERS).then_some(PeerRefusal::PeersFull),
        }
    }

    /// What is heard is accepted. Answers whether it is vouched.
    fn accept(&mut self, heard: &Heard, place: Result<usize, usize>) -> bool
        requires bound { IsSearchInRange place (length self.old.rows) }
        requires room { OnErr place (length self.old.rows < PEERS) }
        ensures vouched { result ≡
            (heard.now.lists && is_number_recent self.old.sent heard.now.listed) }
        ensures table { self.new ≡
            record self.old { rows = rows_heard place result heard.now self.old.rows } }
    {
        let vouched = heard.lists && self.sent.is_recent(heard.listed);
        remember(&mut self.rows, place, heard, vouched);
        if vouched {
            displace(&mut self.rows, heard);
        }
        vouched
    }

    /// How many members have an accepted announcement younger than the life time.
    pub fn len(&self) -> usize
        ensures { (own : Own) (h : List Peering) → StandsFor own self.now h →
            result ≡ length (known own h) }
    {
        self.rows.len()
    }

    /// The row at a place among them, in ascending order of member identifier, or `None` past the
    /// last.
    pub fn row(&self, at: usize) -> Option<Row>
        ensures row { (own : Own) (h : List Peering) → StandsFor own self.now h →
            result ≡ row_at own h at }
        ensures past { (own : Own) (h : List Peering) → StandsFor own self.now h →
            (IsNone result ↔ (length (known own h) ≤ at)) }
    {
        shown_at(self.rows.as_slice(), at)
    }

    /// The rows as they stand, in the same order. They take the place of what the vector has, and
    /// there is room for them, so no memory is taken.
    pub fn rows_now(&self, into: &mut Vec<Row>)
        requires { most_peers ≤ vec_capacity into.old }
        ensures rows { (own : Own) (h : List Peering) → StandsFor own self.now h → (at : ℕ) →
            slice_get into.new.items at ≡ row_at own h at }
        ensures few { length into.new.items ≤ most_peers }
        ensures capacity { vec_capacity into.new ≡ vec_capacity into.old }
    {
        show(self.rows.as_slice(), into);
    }

    /// The rows as they will be after the next tick, in the same order. They take the place of what
    /// the vector has, and there is room for them, so no memory is taken.
    pub fn rows_after_tick(&self, into: &mut Vec<Row>)
        requires { most_peers ≤ vec_capacity into.old }
        ensures rows { (own : Own) (h : List Peering) → StandsFor own self.now h → (at : ℕ) →
            slice_get into.new.items at ≡ row_at own (ticked ∷ h) at }
        ensures shown { into.new.items ≡ rows_shown_later self.now }
        ensures few { length into.new.items ≤ most_peers }
        ensures capacity { vec_capacity into.new ≡ vec_capacity into.old }
    {
        show_after_tick(self.rows.as_slice(), into);
    }

    /// Whether the next tick changes nothing of the rows. It may answer no where it changes none.
    pub fn stays(&self) -> bool
        ensures { IsTrue result → rows_shown_later self.now ≡ rows_shown self.now }
    {
        stay(self.rows.as_slice())
    }
}

/// What an accepted announcement comes to.
fn accepted_as(vouched: bool) -> Outcome
    ensures { result ≡ (if vouched then Outcome.Vouched else Outcome.Unvouched) }
{
    if vouched {
        Outcome::Vouched
    } else {
        Outcome::Unvouched
    }
}
