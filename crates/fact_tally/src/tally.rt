//! The summary of facts.

ghost use Rattle.std.specs.Prelude.{◌≡◌, ◌+◌, ◌++◌, ◌∷◌, [], min, List, IfOk, OnOk};
ghost use Rattle.serde_json.specs.Data.{number, unsigned, put, no_members};
ghost use Rattle.serde_json.specs.View.{view, members_view};
ghost use Rattle.lan_core.specs.declared.fact.Fact.{Fact};
ghost use Rattle.fact_tally.specs.Summary.{counts, members_of, object_of, line_of, most};
ghost use Rattle.fact_tally.specs.inside.Counting.{one_more, one_more_arrival};

use lan_base::Octets;
use lan_core::Fact;
use rx_slots::Arrival;
use serde_json::{Map, Value};
use std::alloc::{AllocError, Global};
use std::marker::Model;

/// How many facts there were of nine kinds. A count stops at 2^64 - 1.
#[derive(Debug, Drop)]
pub struct Tally {
    accepted: u64,
    begun: u64,
    claims: u64,
    frames: u64,
    installed: u64,
    late: u64,
    missed: u64,
    noclaims: u64,
    ticks: u64,
}

impl Model for Tally {
    ghost use Rattle.fact_tally.specs.Summary.{Counts};

    ghost Value = { Counts };

    ghost view = { λ t. record {
      accepted = t.accepted;
      begun = t.begun;
      claims = t.claims;
      frames = t.frames;
      installed = t.installed;
      late = t.late;
      missed = t.missed;
      noclaims = t.noclaims;
      ticks = t.ticks;
    } };
}

impl Tally {
    /// The tally of no facts.
    #[tactic(auto, unfolding(crate::specs::Summary::counts))]
    pub fn new() -> Tally
        ensures { result ≡ counts [] }
    {
        Tally {
            accepted: 0,
            begun: 0,
            claims: 0,
            frames: 0,
            installed: 0,
            late: 0,
            missed: 0,
            noclaims: 0,
            ticks: 0,
        }
    }

    /// The same counts once more.
    pub fn copied(&self) -> Tally
        ensures { result ≡ self.now }
    {
        Tally {
            accepted: self.accepted,
            begun: self.begun,
            claims: self.claims,
            frames: self.frames,
            installed: self.installed,
            late: self.late,
            missed: self.missed,
            noclaims: self.noclaims,
            ticks: self.ticks,
        }
    }

    /// A fact is counted, if it is of a kind that is.
    pub fn add(&mut self, fact: &Fact)
        ensures { (shown : List Fact) → self.old ≡ counts shown
            → self.new ≡ counts (shown ++ fact.now ∷ []) }
    {
        self.count(fact);
    }

    /// How many packet numbers were claimed.
    pub fn claims(&self) -> u64
        ensures { result ≡ self.now.claims }
    {
        self.claims
    }

    /// The counts as one line: an object of JSON without blanks, and a line feed.
    pub fn text(&self, alloc: Global) -> Result<Octets, AllocError>
        ensures { IfOk result (λ text. text ≡ line_of self.now) }
    {
        let mut text = self.object(alloc)?.to_string(alloc)?.into_bytes();
        text.push(b'\n')?;
        Ok(Octets::of(text))
    }

    /// One fact more.
    fn count(&mut self, fact: &Fact)
        ensures { self.new ≡ one_more self.old fact.now }
    {
        match fact {
            Fact::Arrived { arrival, .. } => self.count_arrival(arrival),
            Fact::Began { .. } => more(&mut self.begun),
            Fact::Claimed { .. } => more(&mut self.claims),
            Fact::Framed { .. } => more(&mut self.frames),
            Fact::Installed { .. } => more(&mut self.installed),
            Fact::Unclaimed { .. } => more(&mut self.noclaims),
            Fact::Ticked { .. } => more(&mut self.ticks),
            _ => {}
        }
    }

    /// One answer to a protected frame more.
    fn count_arrival(&mut self, arrival: &Arrival)
        ensures { self.new ≡ one_more_arrival self.old arrival.now }
    {
        match arrival {
            Arrival::Accepted { .. } => more(&mut self.accepted),
            Arrival::Late { .. } => more(&mut self.late),
            Arrival::Missed { .. } => more(&mut self.missed),
            Arrival::Malformed(_) | Arrival::Own | Arrival::BadCheck => {}
        }
    }

    /// The counts as an object.
    fn object(&self, alloc: Global) -> Result<Value, AllocError>
        ensures { IfOk result (λ object. view object ≡ object_of self.now) }
    {
        let mut members = Map::new(alloc);
        self.put_counts(&mut members, alloc)?;
        Ok(Value::Object(members))
    }

    /// The counts as the members of an object that has none.
    fn put_counts(&self, members: &mut Map<String, Value>, alloc: Global) -> Result<(), AllocError>
        ensures { members_view members.old.entries ≡ no_members
            → OnOk result (members_view members.new.entries ≡ members_of self.now) }
    {
        put_count(members, alloc, "accepted", self.accepted)?;
        put_count(members, alloc, "begun", self.begun)?;
        put_count(members, alloc, "claims", self.claims)?;
        put_count(members, alloc, "frames", self.frames)?;
        put_count(members, alloc, "installed", self.installed)?;
        put_count(members, alloc, "late", self.late)?;
        put_count(members, alloc, "missed", self.missed)?;
        put_count(members, alloc, "noclaims", self.noclaims)?;
        put_count(members, alloc, "ticks", self.ticks)?;
        Ok(())
    }
}

/// One more, as far as it can be counted.
fn more(count: &mut u64)
    ensures { count.new ≡ min (count.old + 1) most }
{
    *count = count.saturating_add(1);
}

/// One member more: a name, with a count.
fn put_count(
    members: &mut Map<String, Value>,
    alloc: Global,
    name: &str,
    count: u64,
) -> Result<(), AllocError>
    ensures { OnOk result (members_view members.new.entries
        ≡ put name.now (number (unsigned count)) (members_view members.old.entries)) }
{
    serde_json::put(members, alloc, name, Value::from(count))
}
