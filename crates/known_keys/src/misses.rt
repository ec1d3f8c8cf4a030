//! What says why a frame is undecided.

ghost use Rattle.std.specs.Prelude.{◌≡◌, [], OnOk, IfOk};
ghost use Rattle.known_keys.specs.Maps.{has, sci_cmp};
ghost use Rattle.known_keys.specs.Undecided.{is_closed};
ghost use Rattle.known_keys.specs.inside.Missing.{IsOffered, IsShown, IsStranger, IsWithheld, PutsFirst, is_lacking, is_one_lacking};

use crate::giving::NoSak;
use crate::lists::is_open;
use crate::reason::Reason;
use crate::times::{GroupId, Times};
use lan_base::{AssociationNumber, Sci, is_recent};
use mkpdu_codec::ConfidentialityOffset;
use std::alloc::{AllocError, Global};
use std::collections::{BTreeMap, BTreeSet};
use std::marker::Model;

/// Of each identifier in a group the offset with which its first SAK was given, and whether it was
/// given without one; when identifiers were named last; and the senders of packets of unknown key
/// names. Contracts see the entries.
#[derive(Drop)]
pub struct Misses {
    offsets: BTreeMap<GroupId, ConfidentialityOffset>,
    suites: BTreeSet<GroupId>,
    wraps: BTreeSet<GroupId>,
    named: Times,
    strange: BTreeSet<Sci>,
}

impl Model for Misses {
    ghost use Rattle.known_keys.specs.Maps.{Missed};

    ghost Value = { Missed };

    ghost view = { λ m. record {
      offsets = m.offsets.entries;
      suites = m.suites.keys;
      wraps = m.wraps.keys;
      named = m.named;
      strange = m.strange.keys;
    } };
}

impl Misses {
    /// Nothing was read. No memory is taken.
    pub fn new(alloc: Global) -> Misses
        ensures { result ≡ record {
          offsets = [];
          suites = [];
          wraps = [];
          named = record { an0 = []; an1 = []; an2 = []; an3 = [] };
          strange = [];
        } }
    {
        Misses {
            offsets: BTreeMap::new(alloc),
            suites: BTreeSet::new(alloc),
            wraps: BTreeSet::new(alloc),
            named: Times::new(alloc),
            strange: BTreeSet::new(alloc),
        }
    }

    /// A SAK of an identifier is given with an offset.
    pub fn offer(
        &mut self,
        it: GroupId,
        an: AssociationNumber,
        nanos: u64,
        offset: ConfidentialityOffset,
    ) -> Result<(), AllocError>
        ensures { OnOk result (IsOffered an it nanos offset self.old self.new) }
    {
        self.named.put(an, it, nanos)?;
        put_first(&mut self.offsets, it, offset)?;
        Ok(())
    }

    /// An identifier is given without a SAK: whether it is the first time in its group for this
    /// reason.
    pub fn withhold(
        &mut self,
        it: GroupId,
        an: AssociationNumber,
        nanos: u64,
        why: NoSak,
    ) -> Result<bool, AllocError>
        ensures { IfOk result (λ is_first. IsWithheld an it nanos why self.old self.new is_first) }
    {
        self.named.put(an, it, nanos)?;
        match why {
            NoSak::OtherSuite => Ok(self.suites.insert(it)?),
            NoSak::WrongWrap => Ok(self.wraps.insert(it)?),
        }
    }

    /// An identifier is shown in use.
    pub fn show(&mut self, it: GroupId, an: AssociationNumber, nanos: u64) -> Result<(), AllocError>
        ensures { OnOk result (IsShown an it nanos self.old self.new) }
    {
        self.named.put(an, it, nanos)?;
        Ok(())
    }

    /// A packet of an unknown key name is of this sender.
    pub fn put_strange(&mut self, sci: Sci) -> Result<(), AllocError>
        ensures { OnOk result (IsStranger sci self.old self.new) }
    {
        self.strange.insert(sci)?;
        Ok(())
    }

    /// Whether a packet of an unknown key name was of this sender.
    pub fn is_strange(&self, sci: Sci) -> bool
        ensures { result ≡ has sci_cmp self.now.strange sci }
    {
        self.strange.contains(&sci)
    }

    /// Whether this reason holds for an identifier that was named under an association number less
    /// than MKA Life Time before a time in nanoseconds, or behind it. Costs look-ups for each that was named
    /// under it.
    pub fn is_one_lacking(&self, an: AssociationNumber, now: u64, reason: Reason) -> bool
        ensures { result ≡ is_one_lacking self.now an now reason }
    {
        self.named.under(an).iter().any(|(it, nanos)| is_recent(*nanos, now)
            && self.is_lacking(it, reason))
    }

    /// Whether this reason holds for an identifier.
    fn is_lacking(&self, it: &GroupId, reason: Reason) -> bool
        ensures { result ≡ is_lacking reason self.now it.now }
    {
        let first = self.offsets.get(it).copied();
        let is_other = self.suites.contains(it);
        match reason {
            Reason::Suite => first.is_none() && is_other,
            Reason::Offset => is_closed(first),
            Reason::Unseen => first.is_none() && !is_other,
            Reason::Ckn | Reason::NoKey => false,
        }
    }
}

/// The offset of the first SAK of an identifier is kept.
fn put_first(
    offsets: &mut BTreeMap<GroupId, ConfidentialityOffset>,
    it: GroupId,
    offset: ConfidentialityOffset,
) -> Result<(), AllocError>
    ensures { OnOk result (PutsFirst it offset offsets.old.entries offsets.new.entries) }
{
    if offsets.contains_key(&it) {
        return Ok(());
    }
    offsets.insert(it, offset)?;
    Ok(())
}

/// Whether the first SAK came with an offset under which no frames are opened.
fn is_closed(first: Option<ConfidentialityOffset>) -> bool
    ensures { result ≡ is_closed first }
{
    match first {
        Some(offset) => !is_open(offset),
        None => false,
    }
}
