//! What packets gave, so that pairs of them are judged as they come.

ghost use Rattle.std.specs.Prelude.{◌≡◌, [], None, IfOk};
ghost use Rattle.known_keys.specs.OneKey.{lesser_of};
ghost use Rattle.known_keys.specs.inside.Firsts.{IsGiven};

use crate::firsts::{lesser, note_id, note_name};
use crate::named::Named;
use lan_base::{KeyId, Mi};
use std::alloc::{AllocError, Global};
use std::collections::BTreeMap;
use std::marker::Model;

/// The packets that told another thing first, if there are such: of an identifier, and of a key.
#[derive(Clone, Copy, Debug, PartialEq, Eq)]
pub struct Others {
    pub name: Option<u32>,
    pub id: Option<u32>,
}

/// By identifier and by key, the first packet that gave it, and what that gave; the least pair of
/// packets that break each rule; and the last packet. Contracts see the entries of the maps.
#[derive(Drop)]
pub struct Givings {
    names: BTreeMap<(Mi, u32), (u32, Named)>,
    ids: BTreeMap<u32, (u32, KeyId)>,
    name_pair: Option<(u32, u32)>,
    id_pair: Option<(u32, u32)>,
    last: u32,
}

impl Model for Givings {
    ghost use Rattle.known_keys.specs.Maps.{Firsts};

    ghost Value = { Firsts };

    ghost view = { λ g. record {
      names = g.names.entries;
      ids = g.ids.entries;
      name_pair = g.name_pair;
      id_pair = g.id_pair;
      last = g.last;
    } };
}

impl Givings {
    /// Nothing was given. No memory is taken.
    pub fn new(alloc: Global) -> Givings
        ensures { result ≡ record { names = []; ids = []; name_pair = None; id_pair = None; last = 0 } }
    {
        Givings {
            names: BTreeMap::new(alloc),
            ids: BTreeMap::new(alloc),
            name_pair: None,
            id_pair: None,
            last: 0,
        }
    }

    /// A packet gives a key under an identifier.
    pub fn note(&mut self, packet: u32, id: KeyId, named: Named) -> Result<Others, AllocError>
        ensures { IfOk result (λ others. IsGiven packet id named self.old self.new others) }
    {
        let name = note_name(&mut self.names, &mut self.name_pair, packet, id, named)?;
        let other = note_id(&mut self.ids, &mut self.id_pair, packet, named.key, id)?;
        self.last = packet;
        Ok(Others { name, id: other })
    }

    /// The least pair of packets that break either rule.
    pub fn one_key(&self) -> Option<(u32, u32)>
        ensures { result ≡ lesser_of self.now.name_pair self.now.id_pair }
    {
        lesser(self.name_pair, self.id_pair)
    }
}
