//! The keys of a protected LAN as they become known.

ghost use Rattle.std.specs.Prelude.{◌≡◌, ◌↔◌, ◌<◌, ◌≤◌, ◌++◌, ◌∷◌, [], ℕ, List, length, not, Some, Err, IfOk, IfSome, OnOk, map};
ghost use Rattle.aes_block.specs.Secrets.{secret_octets};
ghost use Rattle.least_pairs.specs.Pairs.{IsJudged};
ghost use Rattle.known_keys.specs.History.{Entry, Gave, Set, Showed, Strange, keys};
ghost use Rattle.known_keys.specs.declared.giving.Giving.TheVariants.{Key, Without};
ghost use Rattle.known_keys.specs.Known.{known};
ghost use Rattle.known_keys.specs.Numbered.{most_keys, number_in};
ghost use Rattle.known_keys.specs.OneKey.{BreaksOneKey};
ghost use Rattle.known_keys.specs.Standing.{StandsFor};
ghost use Rattle.known_keys.specs.Telling.{told_of};
ghost use Rattle.known_keys.specs.Undecided.{group_id, is_unknown, undecided, was_without};
ghost use Rattle.known_keys.specs.declared.fault.KeyError.TheVariants.{TooManyKeys};

use crate::falling::{append_both, are_empty};
use crate::fault::KeyError;
use crate::gives::Gives;
use crate::giving::NoSak;
use crate::givings::Givings;
use crate::keys::Keys;
use crate::lists::Lists;
use crate::misses::Misses;
use crate::named::Named;
use crate::reason::{Reason, first_of};
use crate::said::{Said, statement_of};
use crate::sender::Sender;
use crate::times::group_id;
use aes_block::Secret;
use gcm_core::GcmKey;
use lan_base::{AssociationNumber, KeyId, Sci};
use mkpdu_codec::ConfidentialityOffset;
use std::alloc::{AllocError, Global};
use std::marker::Model;

/// The keys that became known so far. A value that answered that memory ran out is not to be used
/// again: no clause speaks of it.
#[derive(Drop)]
pub struct KnownKeys {
    keys: Keys,
    lists: Lists,
    givings: Givings,
    said: Said,
    misses: Misses,
}

impl Model for KnownKeys {
    ghost use Rattle.known_keys.specs.Standing.{KeptKeys};

    ghost Value = { KeptKeys };

    ghost view = { λ k. record {
      keys = k.keys;
      lists = k.lists;
      firsts = k.givings;
      said = k.said;
      misses = k.misses;
    } };
}

impl KnownKeys {
    /// No key. No memory is taken.
    pub fn new(alloc: Global) -> KnownKeys
        ensures stands { StandsFor [] result }
        ensures last { result.firsts.last ≡ 0 }
    {
        KnownKeys {
            keys: Keys::new(alloc),
            lists: Lists::new(alloc),
            givings: Givings::new(alloc),
            said: Said::new(alloc),
            misses: Misses::new(alloc),
        }
    }

    /// A key is set by hand for the frames of a sender, or of any, under an association number: its
    /// number. Costs look-ups among the keys and among the senders, and for a key that is new to the
    /// sender a move of the numbers of the keys known to it.
    pub fn set(
        &mut self,
        sender: Sender,
        an: AssociationNumber,
        sak: Secret,
    ) -> Result<u32, KeyError>
        ensures set { (history : List Entry) → StandsFor history self.old
            → IfOk result (λ number. StandsFor (Set sender an sak ∷ history) self.new) }
        ensures number { (history : List Entry) → StandsFor history self.old
            → IfOk result (λ number. number_in (keys (Set sender an sak ∷ history)) sak ≡ Some number) }

        // There would be one key too many: all stays as it was.
        ensures full { (history : List Entry) → StandsFor history self.old
            → (result ≡ Err TooManyKeys) ↔ (most_keys < length (keys (Set sender an sak ∷ history))) }
        ensures kept { result ≡ Err TooManyKeys → self.new ≡ self.old }
        ensures last { OnOk result (self.new.firsts.last ≡ self.old.firsts.last) }
    {
        let number = self.keys.number(sak)?;
        self.lists.put(sender, an, number)?;
        Ok(number)
    }

    /// A packet behind all that gave a key before gives one under an identifier, at a time in
    /// nanoseconds (a right MKPDU with a Distributed SAK, IEEE Std 802.1X, clause 11): what is told of
    /// it. Costs look-ups among the keys and the identifiers, and for a key that is new to the
    /// association number a move of the numbers of those known under it.
    pub fn give(
        &mut self,
        packet: u32,
        nanos: u64,
        group: u32,
        id: KeyId,
        an: AssociationNumber,
        offset: ConfidentialityOffset,
        sak: Secret,
    ) -> Result<Gives, KeyError>
        requires { self.old.firsts.last < packet }
        ensures gave { (history : List Entry) → StandsFor history self.old
            → IfOk result (λ it. StandsFor (Gave packet nanos group id an (Key offset sak) ∷ history) self.new) }
        ensures number { (history : List Entry) → StandsFor history self.old
            → IfOk result (λ it. number_in (keys (Gave packet nanos group id an (Key offset sak) ∷ history)) sak
            ≡ Some it.key) }
        ensures told { (history : List Entry) → StandsFor history self.old
            → IfOk result (λ it. it ≡ told_of history group id an offset it.key) }

        // There would be one key too many: all stays as it was.
        ensures full { (history : List Entry) → StandsFor history self.old
            → (result ≡ Err TooManyKeys)
            ↔ (most_keys < length (keys (Gave packet nanos group id an (Key offset sak) ∷ history))) }
        ensures kept { result ≡ Err TooManyKeys → self.new ≡ self.old }
        ensures last { OnOk result (self.new.firsts.last ≡ packet) }
    {
        let number = self.keys.number(sak)?;
        self.lists.open(offset, an, number)?;
        let note = self.givings.note(packet, id, Named { an, key: number })?;
        let fresh = self.said.put(statement_of(group, id, an, offset, number))?;
        self.misses.offer(group_id(group, id), an, nanos, offset)?;
        Ok(Gives {
            key: number,
            is_new: fresh.statement,
            is_new_naming: fresh.naming,
            other_name: note.name,
            other_id: note.id,
        })
    }

    /// A right MKPDU with a Distributed SAK gives no SAK under an identifier, at a time in nanoseconds:
    /// whether none of its group gave none under it for this reason before. Costs look-ups among the
    /// identifiers.
    pub fn give_none(
        &mut self,
        nanos: u64,
        group: u32,
        id: KeyId,
        an: AssociationNumber,
        why: NoSak,
    ) -> Result<bool, AllocError>
        ensures gave { (history : List Entry) (packet : ℕ) → StandsFor history self.old
            → IfOk result (λ is_first. StandsFor (Gave packet nanos group id an (Without why) ∷ history) self.new) }
        ensures first { (history : List Entry) → StandsFor history self.old
            → IfOk result (λ is_first. is_first ≡ not (was_without history why (group_id group id))) }
        ensures last { OnOk result (self.new.firsts.last ≡ self.old.firsts.last) }
    {
        self.misses.withhold(group_id(group, id), an, nanos, why)
    }

    /// A right MKPDU shows a key in use at a time in nanoseconds: as latest or as old, with tx or rx
    /// (IEEE Std 802.1X, clause 11). Costs a look-up among the identifiers.
    pub fn show(
        &mut self,
        nanos: u64,
        group: u32,
        id: KeyId,
        an: AssociationNumber,
    ) -> Result<(), AllocError>
        ensures showed { (history : List Entry) (packet : ℕ) → StandsFor history self.old
            → OnOk result (StandsFor (Showed packet nanos group id an ∷ history) self.new) }
        ensures last { OnOk result (self.new.firsts.last ≡ self.old.firsts.last) }
    {
        self.misses.show(group_id(group, id), an, nanos)
    }

    /// An MKPDU of a key name that no group has is of this sender. Costs a look-up among the senders.
    pub fn strange(&mut self, sci: Sci) -> Result<(), AllocError>
        ensures strange { (history : List Entry) → StandsFor history self.old
            → OnOk result (StandsFor (Strange sci ∷ history) self.new) }
        ensures last { OnOk result (self.new.firsts.last ≡ self.old.firsts.last) }
    {
        self.misses.put_strange(sci)
    }

    /// The least pair of packets, the earlier first, that give one identifier with two SAKs or two
    /// association numbers, or one SAK under two identifiers.
    pub fn one_key(&self) -> Option<(u32, u32)>
        ensures least { (history : List Entry) → StandsFor history self.now
            → IsJudged (BreaksOneKey history) result }

        // The earlier packet is before the later one, and none is behind the last that gave a key.
        ensures order { (history : List Entry) → StandsFor history self.now
            → IfSome result (λ pair. (pair.0 < pair.1) × (pair.1 ≤ self.now.firsts.last)) }
    {
        self.givings.one_key()
    }

    /// Appends the numbers of the keys known to a frame of a sender under an association number, the
    /// newest first. Costs two look-ups, and as much as there are such numbers.
    pub fn known(
        &self,
        sci: Sci,
        an: AssociationNumber,
        numbers: &mut Vec<u32>,
    ) -> Result<(), AllocError>
        ensures { (history : List Entry) → StandsFor history self.now
            → OnOk result (numbers.new.items ≡ numbers.old.items ++ known history sci an) }
    {
        append_both(
            self.lists.numbers(Sender::Any, an),
            self.lists.numbers(Sender::One(sci), an),
            numbers,
        )
    }

    /// The keys, prepared, in the order of their numbers.
    pub fn prepared(&self) -> &[GcmKey]
        ensures { (history : List Entry) → StandsFor history self.now
            → result.now ≡ map secret_octets (keys history) }
    {
        self.keys.prepared()
    }

    /// Why a frame of a sender under an association number is undecided at a time in nanoseconds, where
    /// it is right under no key that is known to it; none where it is wrong. Costs look-ups of each
    /// identifier that was named under the association number.
    pub fn undecided(&self, sci: Sci, an: AssociationNumber, nanos: u64) -> Option<Reason>
        ensures { (history : List Entry) → StandsFor history self.now
            → result ≡ undecided history sci an nanos }
    {
        first_of(
            self.misses.is_one_lacking(an, nanos, Reason::Suite),
            self.misses.is_one_lacking(an, nanos, Reason::Offset),
            self.misses.is_one_lacking(an, nanos, Reason::Unseen),
            self.misses.is_strange(sci),
            self.is_unknown(sci, an),
        )
    }

    /// Whether no key is known to a frame.
    fn is_unknown(&self, sci: Sci, an: AssociationNumber) -> bool
        ensures { (history : List Entry) → StandsFor history self.now
            → result ≡ is_unknown history sci an }
    {
        let any = self.lists.numbers(Sender::Any, an);
        let one = self.lists.numbers(Sender::One(sci), an);
        are_empty(any, one)
    }
}
