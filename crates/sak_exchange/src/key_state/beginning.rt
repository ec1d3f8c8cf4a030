//! The latest key begins: the station leads, or follows its server.

ghost use Rattle.std.specs.Prelude.{◌≡◌, [], List, ℕ, false, IfOk, OnOk, OnErr, IsOk, IsNone};
ghost use Rattle.std.specs.List.{list_all};
ghost use Rattle.lan_base.specs.declared.address.Mi.{Mi};
ghost use Rattle.sak_exchange.specs.Histories.{Keying};
ghost use Rattle.sak_exchange.specs.Reports.{reports_latest};
ghost use Rattle.sak_exchange.specs.Outcomes.{leading, following};
ghost use Rattle.sak_exchange.specs.Standing.{StandsFor};
ghost use Rattle.sak_exchange.specs.inside.States.{lead_cause_now, leads_now, follows_now, beginning_changes, beginning_state};

use super::KeyState;
use crate::change::{Cause, Change, Changes};
use crate::latest::Latest;
use crate::report::{Report, transmits};
use lan_base::{KeyId, LIFE_TIME};
use mkpdu_codec::Uses;
use std::alloc::AllocError;

impl KeyState {
    /// At a tick of a station that is its own elected server: its latest key begins, where its life
    /// made it, it has not begun, and either all live members report it or it was made the life
    /// time ago.
    pub fn lead(&mut self, reports: &[Report]) -> Result<Changes, AllocError>
        ensures changes { (base : ℕ) (own : Mi) (h : List Keying)
            → StandsFor base own false self.old h →
            IfOk result (λ c. c ≡ (leading h reports.now).changes) }
        ensures stands { (base : ℕ) (own : Mi) (h : List Keying)
            → StandsFor base own false self.old h →
            OnOk result (StandsFor base own false self.new (leading h reports.now).past) }
        ensures prompt { (base : ℕ) (own : Mi) (h : List Keying)
            → StandsFor base own false self.old h →
            (leading h reports.now).changes ≡ [] → IsOk result }
        ensures epochs { self.new.epochs ≡ self.old.epochs }
        ensures unchanged { OnErr result (self.new ≡ self.old) }
    {
        self.begin(self.leads(reports))
    }

    /// The latest key, if the station leads with it, and why.
    pub(super) fn leads(&self, live: &[Report]) -> Option<(Latest, Cause)>
        ensures { result ≡ leads_now self.now live.now }
    {
        let latest = self.latest?;
        if self.roster.is_none() || latest.held.begun {
            return None;
        }
        let cause = self.lead_cause(live, &latest.held.key.id)?;
        Some((latest, cause))
    }

    /// Why a key that this life made begins, if it does.
    fn lead_cause(&self, live: &[Report], id: &KeyId) -> Option<Cause>
        ensures { result ≡ lead_cause_now self.now live.now id.now }
    {
        if all_report_latest(live, id) {
            return Some(Cause::All);
        }
        match self.since_made {
            Some(ticks) if ticks >= LIFE_TIME => Some(Cause::Timeout),
            _ => None,
        }
    }

    /// At a vouched announcement of the elected server with these uses: the latest key begins,
    /// where it has not and the server says that it transmits under it.
    pub fn follow(&mut self, uses: &Uses) -> Result<Changes, AllocError>
        ensures changes { (base : ℕ) (own : Mi) (h : List Keying)
            → StandsFor base own false self.old h →
            IfOk result (λ c. c ≡ (following h uses.now).changes) }
        ensures stands { (base : ℕ) (own : Mi) (h : List Keying)
            → StandsFor base own false self.old h →
            OnOk result (StandsFor base own false self.new (following h uses.now).past) }
        ensures prompt { (base : ℕ) (own : Mi) (h : List Keying)
            → StandsFor base own false self.old h →
            (following h uses.now).changes ≡ [] → IsOk result }
        ensures unchanged { OnErr result (self.new ≡ self.old) }
    {
        self.begin(self.follows(uses))
    }

    /// The latest key, if the station follows its elected server, who says this of its keys.
    fn follows(&self, uses: &Uses) -> Option<(Latest, Cause)>
        ensures { result ≡ follows_now self.now uses.now }
    {
        let latest = self.latest?;
        if latest.held.begun || !transmits(uses, &latest.held.key.id) {
            return None;
        }
        Some((latest, Cause::Flag))
    }

    /// The latest key begins, where one is told.
    fn begin(&mut self, beginning: Option<(Latest, Cause)>) -> Result<Changes, AllocError>
        ensures changes { IfOk result (λ c. c ≡ beginning_changes beginning) }
        ensures state { OnOk result (self.new ≡ beginning_state self.old beginning) }
        ensures prompt { IsNone beginning → IsOk result }
        ensures epochs { self.new.epochs ≡ self.old.epochs }
        ensures unchanged { OnErr result (self.new ≡ self.old) }
    {
        let Some((latest, cause)) = beginning else {
            return Ok(Changes::new(self.alloc));
        };
        let latest = latest.begun_now();
        let key = latest.held;
        let changes = Changes::of(self.alloc, Change::Began { key, cause })?;
        self.latest = Some(latest);
        Ok(changes)
    }
}

/// Whether each of them says that its member receives under this key as its latest one.
fn all_report_latest(live: &[Report], id: &KeyId) -> bool
    ensures { result ≡ list_all (λ r. reports_latest id.now r.uses) live.now }
{
    live.iter().all(|report| report.reports_latest(id))
}
