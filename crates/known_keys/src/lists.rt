//! The numbers of the keys that were told for the frames of a sender, or of any, under an
//! association number.

ghost use Rattle.std.specs.Prelude.{◌≡◌, [], OnOk, OnErr};
ghost use Rattle.known_keys.specs.Maps.{numbers_under, sender_of};
ghost use Rattle.known_keys.specs.inside.Steps.{IsPutAt, IsToldTo, Opens};
ghost use Rattle.known_keys.specs.Known.{is_open};

use crate::falling::Falling;
use crate::sender::Sender;
use lan_base::{AssociationNumber, Sci};
use mkpdu_codec::ConfidentialityOffset;
use std::alloc::{AllocError, Global};
use std::collections::BTreeMap;
use std::marker::Model;

/// By association number and sender, none for any, the numbers of the keys that were told for their
/// frames, the greatest first. Contracts see the entries.
#[derive(Drop)]
pub struct Lists {
    alloc: Global,
    lists: BTreeMap<(u8, Option<Sci>), Falling>,
}

impl Model for Lists {
    ghost use Rattle.known_keys.specs.Maps.{Told};

    ghost Value = { Told };

    ghost view = { λ lists. lists.lists.entries };
}

impl Lists {
    /// No number. No memory is taken.
    pub fn new(alloc: Global) -> Lists
        ensures { result ≡ [] }
    {
        Lists {
            alloc,
            lists: BTreeMap::new(alloc),
        }
    }

    /// The key of a number was told for the frames of these senders under an association number. An
    /// error leaves all as it was.
    pub fn put(
        &mut self,
        sender: Sender,
        an: AssociationNumber,
        number: u32,
    ) -> Result<(), AllocError>
        ensures put { OnOk result (IsToldTo sender an number self.old self.new) }
        ensures kept { OnErr result (self.new ≡ self.old) }
    {
        put_at(
            self.alloc,
            &mut self.lists,
            (an.number(), one_of(sender)),
            number,
        )
    }

    /// The key of a number was given with this offset: it is told for the frames of any sender, if
    /// frames are opened under it.
    pub fn open(
        &mut self,
        offset: ConfidentialityOffset,
        an: AssociationNumber,
        number: u32,
    ) -> Result<(), AllocError>
        ensures { OnOk result (Opens (is_open offset) an number self.old self.new) }
    {
        if is_open(offset) {
            self.put(Sender::Any, an, number)?;
        }
        Ok(())
    }

    /// The numbers of the keys that were told for the frames of these senders under an association
    /// number, the greatest first.
    pub fn numbers(&self, sender: Sender, an: AssociationNumber) -> &[u32]
        ensures { result.now ≡ numbers_under self.now sender an }
    {
        match self.lists.get(&(an.number(), one_of(sender))) {
            Some(falling) => falling.numbers(),
            None => &[],
        }
    }
}

/// Whether frames are opened under a key that is given with this offset.
pub fn is_open(offset: ConfidentialityOffset) -> bool
    ensures { result ≡ is_open offset }
{
    match offset {
        ConfidentialityOffset::None | ConfidentialityOffset::Octets0 => true,
        ConfidentialityOffset::Octets30 | ConfidentialityOffset::Octets50 => false,
    }
}

/// The one sender, or none for any.
fn one_of(sender: Sender) -> Option<Sci>
    ensures { result ≡ sender_of sender }
{
    match sender {
        Sender::Any => None,
        Sender::One(sci) => Some(sci),
    }
}

/// A number more stands under a key. An error leaves all as it was.
fn put_at(
    alloc: Global,
    lists: &mut BTreeMap<(u8, Option<Sci>), Falling>,
    key: (u8, Option<Sci>),
    number: u32,
) -> Result<(), AllocError>
    ensures put { OnOk result (IsPutAt key number lists.old.entries lists.new.entries) }
    ensures kept { OnErr result (lists.new.entries ≡ lists.old.entries) }
{
    if let Some(falling) = lists.get_mut(&key) {
        return falling.put(number);
    }
    let mut falling = Falling::new(alloc);
    falling.put(number)?;
    lists.insert(key, falling)?;
    Ok(())
}
