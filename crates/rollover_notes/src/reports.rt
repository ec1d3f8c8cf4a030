//! Which keys members reported and began.

ghost use Rattle.std.specs.Prelude.{◌≡◌, [], ◌∷◌, OnOk, is_some};
ghost use Rattle.std.specs.Map.{lookup};
ghost use Rattle.std.specs.BTreeMap.{is_at};
ghost use Rattle.rollover_notes.specs.Reports.{uses_of};
ghost use Rattle.rollover_notes.specs.Standing.{member_key_cmp};
ghost use Rattle.rollover_notes.specs.inside.Reporting.{IsReported, received_in};

use crate::givings::Givings;
use crate::putting::put_first;
use crate::saying::Member;
use member_notes::RightMkpdu;
use mkpdu_codec::{KeyUse, Uses};
use std::alloc::{AllocError, Global};
use std::collections::BTreeMap;

/// By member and key, the first packet in which the member reported the key, and the time by which it
/// had begun it, in nanoseconds.
#[derive(Drop)]
pub struct Reports {
    pub packets: BTreeMap<(Member, u32), u32>,
    pub times: BTreeMap<(Member, u32), u64>,
}

impl Reports {
    /// No report. No memory is taken.
    pub fn new(alloc: Global) -> Reports
        ensures packets { result.packets.entries ≡ [] }
        ensures times { result.times.entries ≡ [] }
    {
        Reports {
            packets: BTreeMap::new(alloc),
            times: BTreeMap::new(alloc),
        }
    }

    /// A member speaks, and shows the keys of a SAK Use, if it has one.
    pub fn take(
        &mut self,
        givings: &Givings,
        mkpdu: &RightMkpdu,
        nanos: u64,
        uses: &Option<Uses>,
    ) -> Result<(), AllocError>
        ensures { OnOk result (IsReported givings.now mkpdu.now nanos (uses_of uses.now) self.old self.new) }
    {
        let Some(uses) = uses else {
            return Ok(());
        };
        self.take_one(givings, mkpdu, nanos, &uses.latest)?;
        self.take_one(givings, mkpdu, nanos, &uses.old)
    }

    /// It shows one key, where that is used to receive and was given before.
    fn take_one(
        &mut self,
        givings: &Givings,
        mkpdu: &RightMkpdu,
        nanos: u64,
        shown: &KeyUse,
    ) -> Result<(), AllocError>
        ensures { OnOk result (IsReported givings.now mkpdu.now nanos (shown.now ∷ []) self.old self.new) }
    {
        let Some(key) = received(givings, mkpdu.group, shown) else {
            return Ok(());
        };
        let at = ((mkpdu.group, mkpdu.mi), key);
        put_first(&mut self.packets, at, mkpdu.packet)?;
        if shown.tx {
            put_first(&mut self.times, at, nanos)?;
        }
        Ok(())
    }

    /// Whether a member reported a key.
    pub fn has(&self, member: Member, key: u32) -> bool
        ensures { result ≡ is_some (lookup (is_at (member_key_cmp (member, key))) self.now.packets.entries) }
    {
        self.packets.contains_key(&(member, key))
    }

    /// The first packet in which it reported a key.
    pub fn packet(&self, member: Member, key: u32) -> Option<u32>
        ensures { result ≡ lookup (is_at (member_key_cmp (member, key))) self.now.packets.entries }
    {
        self.packets.get(&(member, key)).copied()
    }

    /// The time by which it had begun a key.
    pub fn time(&self, member: Member, key: u32) -> Option<u64>
        ensures { result ≡ lookup (is_at (member_key_cmp (member, key))) self.now.times.entries }
    {
        self.times.get(&(member, key)).copied()
    }
}

/// The key that is shown, where it is used to receive and its identifier was given in the group.
fn received(givings: &Givings, group: u32, shown: &KeyUse) -> Option<u32>
    ensures { result ≡ received_in givings.now group shown.now }
{
    if shown.rx {
        givings.key(group, shown.server, shown.number)
    } else {
        None
    }
}
