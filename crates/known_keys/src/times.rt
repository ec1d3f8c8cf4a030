//! When identifiers of keys were named last, under each association number.

ghost use Rattle.std.specs.Prelude.{◌≡◌, [], OnOk};
ghost use Rattle.known_keys.specs.Maps.{times_under};
ghost use Rattle.known_keys.specs.Undecided.{group_id};
ghost use Rattle.known_keys.specs.inside.Missing.{IsNamedMore, IsNamedUnder, is_later};

use lan_base::{AssociationNumber, KeyId, Mi};
use std::alloc::{AllocError, Global};
use std::collections::BTreeMap;
use std::marker::Model;

/// An identifier of a key in a group: the group, and the identifier's server and number.
pub type GroupId = (u32, (Mi, u32));

/// An identifier of a key in a group.
pub fn group_id(group: u32, id: KeyId) -> GroupId
    ensures { result ≡ group_id group id }
{
    (group, (id.server, id.number))
}

/// By association number, the identifiers that were named under it, and the latest time at which each
/// was, in nanoseconds. Contracts see the entries of the four maps.
#[derive(Drop)]
pub struct Times {
    an0: BTreeMap<GroupId, u64>,
    an1: BTreeMap<GroupId, u64>,
    an2: BTreeMap<GroupId, u64>,
    an3: BTreeMap<GroupId, u64>,
}

impl Model for Times {
    ghost use Rattle.known_keys.specs.Maps.{NamedTimes};

    ghost Value = { NamedTimes };

    ghost view = { λ t. record {
      an0 = t.an0.entries;
      an1 = t.an1.entries;
      an2 = t.an2.entries;
      an3 = t.an3.entries;
    } };
}

impl Times {
    /// No identifier was named. No memory is taken.
    pub fn new(alloc: Global) -> Times
        ensures { result ≡ record { an0 = []; an1 = []; an2 = []; an3 = [] } }
    {
        Times {
            an0: BTreeMap::new(alloc),
            an1: BTreeMap::new(alloc),
            an2: BTreeMap::new(alloc),
            an3: BTreeMap::new(alloc),
        }
    }

    /// An identifier is named under an association number. Costs a look-up.
    pub fn put(&mut self, an: AssociationNumber, it: GroupId, nanos: u64) -> Result<(), AllocError>
        ensures { OnOk result (IsNamedUnder an it nanos self.old self.new) }
    {
        match an {
            AssociationNumber::An0 => put_time(&mut self.an0, it, nanos),
            AssociationNumber::An1 => put_time(&mut self.an1, it, nanos),
            AssociationNumber::An2 => put_time(&mut self.an2, it, nanos),
            AssociationNumber::An3 => put_time(&mut self.an3, it, nanos),
        }
    }

    /// The identifiers that were named under an association number, and when last.
    pub fn under(&self, an: AssociationNumber) -> &BTreeMap<GroupId, u64>
        ensures { result.now.entries ≡ times_under self.now an }
    {
        match an {
            AssociationNumber::An0 => &self.an0,
            AssociationNumber::An1 => &self.an1,
            AssociationNumber::An2 => &self.an2,
            AssociationNumber::An3 => &self.an3,
        }
    }
}

/// An identifier is named at a time: the latest is kept.
fn put_time(times: &mut BTreeMap<GroupId, u64>, it: GroupId, nanos: u64) -> Result<(), AllocError>
    ensures { OnOk result (IsNamedMore it nanos times.old.entries times.new.entries) }
{
    if is_later(times.get(&it).copied(), nanos) {
        times.insert(it, nanos)?;
    }
    Ok(())
}

/// Whether a time is later than the one before, if there was one.
fn is_later(before: Option<u64>, nanos: u64) -> bool
    ensures { result ≡ is_later before nanos }
{
    match before {
        Some(before) => before < nanos,
        None => true,
    }
}
