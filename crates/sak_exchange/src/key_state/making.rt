//! A key is made, where one is due.

ghost use Rattle.std.specs.Prelude.{◌≡◌, ◌+◌, ◌<◌, ◌^◌, ◌&&◌, ◌∷◌, not, List, ℕ, true, false, is_none, length, IsTrue, IfOk, IfSome, OnOk, OnErr};
ghost use Rattle.std.specs.List.{list_any};
ghost use Rattle.lan_base.specs.declared.address.Mi.{Mi};
ghost use Rattle.lan_base.specs.Identifiers.{has};
ghost use Rattle.sak_exchange.specs.Histories.{Keying, ticked};
ghost use Rattle.sak_exchange.specs.Beginning.{leads};
ghost use Rattle.sak_exchange.specs.Reports.{reports, reaches};
ghost use Rattle.sak_exchange.specs.Making.{makes, made_roster, is_spent};
ghost use Rattle.sak_exchange.specs.Outcomes.{making};
ghost use Rattle.sak_exchange.specs.Standing.{StandsFor};
ghost use Rattle.sak_exchange.specs.inside.States.{is_latest_made_now, is_one_left_out_now, is_latest_spent_now, is_one_behind_now, is_key_due_now, is_rested_now, makes_now, is_used_now, next_an_now, made_key_now};

use super::{KeyState, has};
use crate::change::Changes;
use crate::due::{Due, Rekey};
use crate::held_key::Key;
use crate::report::Report;
use aes_block::Secret;
use lan_base::{AssociationNumber, KeyId, LIFE_TIME, Mi};
use std::alloc::AllocError;
use std::rc::Rc;

impl KeyState {
    /// Whether a station that is its own elected server, and has not begun a key at this tick,
    /// makes one.
    pub fn makes(&self, due: &Due) -> bool
        ensures { (base : ℕ) (own : Mi) (h : List Keying) → StandsFor base own false self.now h →
            result ≡ makes h due.now.live.now due.now.potential due.now.seen due.now.rekey }
    {
        self.makes_now(due)
    }

    /// Whether a station that is its own elected server at the next tick makes a key then, which
    /// it does only where it begins none.
    pub fn makes_next(&mut self, due: &Due) -> bool
        ensures value { (base : ℕ) (own : Mi) (h : List Keying)
            → StandsFor base own false self.old h →
            result ≡ (is_none (leads (ticked true ∷ h) due.now.live.now)
            && makes (ticked true ∷ h) due.now.live.now due.now.potential due.now.seen
            due.now.rekey) }
        ensures unchanged { self.new ≡ self.old }
    {
        let (latest, former, since_made) = (self.latest, self.former, self.since_made);
        self.pass();
        let makes = self.leads(due.live).is_none() && self.makes_now(due);
        self.latest = latest;
        self.former = former;
        self.since_made = since_made;
        makes
    }

    /// Whether a station that is its own elected server makes a key now.
    fn makes_now(&self, due: &Due) -> bool
        ensures { result ≡
            makes_now self.now due.now.live.now due.now.potential due.now.seen due.now.rekey }
    {
        self.allows() && self.is_key_due(due) && self.is_rested(due.potential)
    }

    /// Whether a key is due, for one of four reasons.
    fn is_key_due(&self, due: &Due) -> bool
        ensures { result ≡ is_key_due_now self.now due.now.live.now due.now.seen due.now.rekey }
    {
        !self.is_latest_made()
            || self.is_one_left_out(due.live)
            || self.is_latest_spent(due)
            || self.is_one_behind(due.live)
    }

    /// Whether this life made the latest key.
    fn is_latest_made(&self) -> bool
        ensures { result ≡ is_latest_made_now self.now }
    {
        self.latest.is_some() && self.roster.is_some()
    }

    /// Whether a live member isn't in the latest key's roster.
    fn is_one_left_out(&self, live: &[Report]) -> bool
        ensures { result ≡ is_one_left_out_now self.now live.now }
    {
        match &self.roster {
            Some(roster) if self.latest.is_some() => one_is_missing(roster.as_slice(), live),
            _ => live.iter().any(|report| !self.lists(&report.mi)),
        }
    }

    /// Whether the latest key has begun and is spent.
    fn is_latest_spent(&self, due: &Due) -> bool
        ensures { result
            ≡ is_latest_spent_now self.now due.now.live.now due.now.seen due.now.rekey }
    {
        match &self.latest {
            Some(latest) => latest.held.begun && is_spent(due, &latest.held.key.id),
            None => false,
        }
    }

    /// Whether the latest key began the life time ago or earlier, and a live member doesn't report
    /// it.
    fn is_one_behind(&self, live: &[Report]) -> bool
        ensures { result ≡ is_one_behind_now self.now live.now }
    {
        match &self.latest {
            Some(latest) => {
                latest.held.begun
                    && latest.since_begun >= LIFE_TIME
                    && one_is_silent(live, &latest.held.key.id)
            }
            None => false,
        }
    }

    /// Whether nobody is potential, or this life made no key less than the life time ago.
    fn is_rested(&self, potential: bool) -> bool
        ensures { result ≡ is_rested_now self.now potential }
    {
        match self.since_made {
            Some(ticks) => !potential || ticks >= LIFE_TIME,
            None => true,
        }
    }

    /// A station that is its own elected server makes a key under the SAK, and installs it.
    pub fn make(&mut self, due: &Due, sak: Secret) -> Result<Changes, AllocError>
        requires few { self.old.epochs + 1 < 2 ^ 32 }
        requires due { (base : ℕ) (own : Mi) (h : List Keying)
            → StandsFor base own false self.old h →
            IsTrue (makes h due.now.live.now due.now.potential due.now.seen due.now.rekey) }
        ensures changes { (base : ℕ) (own : Mi) (h : List Keying)
            → StandsFor base own false self.old h →
            IfOk result (λ c. c ≡ (making base own h due.now.live.now due.now.conf sak).changes) }
        ensures stands { (base : ℕ) (own : Mi) (h : List Keying)
            → StandsFor base own false self.old h →
            OnOk result (StandsFor base own false self.new
            (making base own h due.now.live.now due.now.conf sak).past) }
        ensures unchanged { OnErr result (self.new ≡ self.old) }
    {
        let roster = self.made_roster(due.live)?;
        let key = self.made_key(due.conf, sak);
        self.install(key, Some(roster))
    }

    /// The next key that is made.
    fn made_key(&self, conf: bool, sak: Secret) -> Key
        requires { self.now.epochs + 1 < 2 ^ 32 }
        ensures { result ≡ made_key_now self.now conf sak }
    {
        Key {
            id: KeyId {
                server: self.own,
                number: self.made + 1,
            },
            an: self.next_an(),
            sak,
            conf,
            epoch: self.epochs + 1,
        }
    }

    /// The roster of a key that is made: the station itself and the live members.
    fn made_roster(&self, live: &[Report]) -> Result<Rc<Vec<Mi>>, AllocError>
        ensures { IfOk result (λ v. v.value.items ≡ made_roster self.now.own live.now) }
    {
        let mut roster = Vec::new(self.alloc);
        roster.push(self.own)?;
        for report in live {
            roster.push(report.mi)?;
        }
        Ok(Rc::new(self.alloc, roster)?)
    }

    /// The association number of the next key that is made.
    fn next_an(&self) -> AssociationNumber
        ensures { result ≡ next_an_now self.now }
    {
        let Some(an) = self.last_an else {
            return AssociationNumber::An0;
        };
        let first = an.behind();
        if !self.is_used(first) {
            return first;
        }
        let second = first.behind();
        if !self.is_used(second) {
            return second;
        }
        second.behind()
    }

    /// Whether a held key has the association number.
    fn is_used(&self, an: AssociationNumber) -> bool
        ensures { result ≡ is_used_now self.now an }
    {
        let latest = match &self.latest {
            Some(latest) => latest.held.key.an == an,
            None => false,
        };
        let former = match &self.former {
            Some(held) => held.key.an == an,
            None => false,
        };
        latest || former
    }
}

/// Whether one of them isn't in a roster. Mostly they stand in one order, so each is looked for
/// behind the one before.
fn one_is_missing(roster: &[Mi], live: &[Report]) -> bool
    ensures { result ≡ list_any (λ r. not (has r.mi roster.now)) live.now }
{
    let mut from = 0;
    for report in live {
        match place_from(roster, from, &report.mi) {
            Some(at) => from = at + 1,
            None => {
                if !has(roster, &report.mi) {
                    return true;
                }
            }
        }
    }
    false
}

/// Where a member stands in a roster, from this place on.
fn place_from(roster: &[Mi], from: usize, mi: &Mi) -> Option<usize>
    ensures bound { IfSome result (λ at. at < length roster.now) }
    ensures found { IfSome result (λ at. IsTrue (has mi.now roster.now)) }
{
    for at in from..roster.len() {
        if roster[at] == *mi {
            return Some(at);
        }
    }
    None
}

/// Whether one of them doesn't report the key.
fn one_is_silent(live: &[Report], id: &KeyId) -> bool
    ensures { result ≡ list_any (λ r. not (reports id.now r.uses)) live.now }
{
    live.iter().any(|report| !report.reports(id))
}

/// Whether the key is spent.
fn is_spent(due: &Due, id: &KeyId) -> bool
    ensures { result ≡ is_spent due.now.live.now due.now.seen due.now.rekey id.now }
{
    u64::from(due.rekey.from) <= due.seen.next
        || due.rekey.from <= due.seen.latest
        || one_reaches(due.live, due.rekey, id)
}

/// Whether one of them says a lowest acceptable number under the key that isn't below the limit.
fn one_reaches(live: &[Report], limit: Rekey, id: &KeyId) -> bool
    ensures { result ≡ list_any (λ r. reaches limit id.now r.uses) live.now }
{
    live.iter().any(|report| report.reaches(limit, id))
}
