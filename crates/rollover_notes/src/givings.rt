//! Which keys were given, where, and in which order.

ghost use Rattle.std.specs.Prelude.{◌≡◌, [], OnOk};
ghost use Rattle.std.specs.Map.{lookup};
ghost use Rattle.std.specs.BTreeMap.{is_at};
ghost use Rattle.rollover_notes.specs.Givings.{with_key};
ghost use Rattle.rollover_notes.specs.Standing.{group_id_cmp, group_key_cmp, has};
ghost use Rattle.rollover_notes.specs.inside.Giving.{IsGivenMore};

use crate::putting::put_first;
use lan_base::{KeyId, Mi};
use std::alloc::{AllocError, Global};
use std::collections::{BTreeMap, BTreeSet};

/// By group and identifier, the key that was given first under it; the keys that were given in each
/// group; and the keys in the order in which each was given first.
#[derive(Drop)]
pub struct Givings {
    pub ids: BTreeMap<(u32, (Mi, u32)), u32>,
    pub groups: BTreeSet<(u32, u32)>,
    pub order: Vec<u32>,
}

impl Givings {
    /// No key. No memory is taken.
    pub fn new(alloc: Global) -> Givings
        ensures ids { result.ids.entries ≡ [] }
        ensures groups { result.groups.keys ≡ [] }
        ensures order { result.order.items ≡ [] }
    {
        Givings {
            ids: BTreeMap::new(alloc),
            groups: BTreeSet::new(alloc),
            order: Vec::new(alloc),
        }
    }

    /// A key is given in a group under an identifier.
    pub fn give(&mut self, group: u32, id: KeyId, key: u32) -> Result<(), AllocError>
        ensures { OnOk result (IsGivenMore group id key self.old self.new) }
    {
        put_first(&mut self.ids, (group, (id.server, id.number)), key)?;
        if self.groups.insert((group, key))? {
            push_new(&mut self.order, key)?;
        }
        Ok(())
    }

    /// The key of an identifier in a group.
    pub fn key(&self, group: u32, server: Mi, number: u32) -> Option<u32>
        ensures { result ≡ lookup (is_at (group_id_cmp (group, (server, number)))) self.now.ids.entries }
    {
        self.ids.get(&(group, (server, number))).copied()
    }

    /// Whether a key was given in a group.
    pub fn has(&self, group: u32, key: u32) -> bool
        ensures { result ≡ has group_key_cmp self.now.groups.keys (group, key) }
    {
        self.groups.contains(&(group, key))
    }

    /// The keys in the order in which each was given first.
    pub fn order(&self) -> &[u32]
        ensures { result.now ≡ self.now.order.items }
    {
        self.order.as_slice()
    }
}

/// A key stands behind all that were given before it.
fn push_new(keys: &mut Vec<u32>, key: u32) -> Result<(), AllocError>
    ensures { OnOk result (keys.new.items ≡ with_key key keys.old.items) }
{
    if !keys.contains(&key) {
        keys.push(key)?;
    }
    Ok(())
}
