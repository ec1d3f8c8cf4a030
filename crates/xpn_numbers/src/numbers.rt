//! What tells the high halves of packet numbers.

ghost use Rattle.std.specs.Prelude.{◌≡◌, ◌∷◌, ◌++◌, [], ℕ, List, OnOk, OnErr, IfOk};
ghost use Rattle.xpn_numbers.specs.Candidates.{candidates, is_it, shown, shown_by, shown_beside};
ghost use Rattle.xpn_numbers.specs.History.{Entry, Gave, Right, Spoke, places};
ghost use Rattle.lan_base.specs.declared.address.Mi.{Mi};
ghost use Rattle.xpn_numbers.specs.Standing.{StandsFor};
ghost use Rattle.xpn_numbers.specs.inside.Keys.{key_in};

use crate::candidate::{Candidate, Tried};
use crate::form::{Beginning, Form};
use crate::place::{Place, Places, places_after};
use crate::shown::{Said, ShownHigh, ShownHighs};
use crate::trying::{Hints, append_forms};
use lan_base::{KeyId, Mi, Sci, is_recent};
use std::alloc::{AllocError, Global};
use std::collections::BTreeMap;
use std::marker::Model;

/// What tells the high halves of packet numbers: of each key and sender where its right frames stood
/// first and last, of each identifier its first key, and of each member what it showed last. Contracts
/// see the entries of the maps. An error leaves all as it was.
#[derive(Drop)]
pub struct XpnNumbers {
    alloc: Global,
    uses: BTreeMap<(u32, Sci), Places>,
    ids: BTreeMap<(u32, (Mi, u32)), u32>,
    members: BTreeMap<(u32, Mi), Said>,
}

impl Model for XpnNumbers {
    ghost use Rattle.xpn_numbers.specs.Standing.{Kept};

    ghost Value = { Kept };

    ghost view = { λ n. record {
      uses = n.uses.entries;
      ids = n.ids.entries;
      members = n.members.entries;
    } };
}

impl XpnNumbers {
    /// Of no frame and no MKPDU. No memory is taken.
    pub fn new(alloc: Global) -> XpnNumbers
        ensures { StandsFor [] result }
    {
        XpnNumbers {
            alloc,
            uses: BTreeMap::new(alloc),
            ids: BTreeMap::new(alloc),
            members: BTreeMap::new(alloc),
        }
    }

    /// A frame of a sender was right under a key with a salt. Costs a look-up.
    pub fn note_right(&mut self, key: u32, sci: Sci, place: Place) -> Result<(), AllocError>
        ensures noted { (history : List Entry) → StandsFor history self.old
            → OnOk result (StandsFor (Right key sci place ∷ history) self.new) }
        ensures kept { OnErr result (self.new ≡ self.old) }
    {
        let at = (key, sci);
        let places = places_after(self.uses.get(&at).copied(), place);
        self.uses.insert(at, places)?;
        Ok(())
    }

    /// A packet gave the SAK of a key under an identifier in a group. Costs a look-up.
    pub fn note_given(&mut self, group: u32, id: KeyId, key: u32) -> Result<(), AllocError>
        ensures noted { (history : List Entry) → StandsFor history self.old
            → OnOk result (StandsFor (Gave group id key ∷ history) self.new) }
        ensures kept { OnErr result (self.new ≡ self.old) }
    {
        let at = (group, (id.server, id.number));
        if self.ids.get(&at).is_none() {
            self.ids.insert(at, key)?;
        }
        Ok(())
    }

    /// A member said something new, at a time in nanoseconds: what it shows of high halves, maybe
    /// nothing. Costs a look-up.
    pub fn note_spoken(
        &mut self,
        group: u32,
        mi: Mi,
        nanos: u64,
        shown: ShownHighs,
    ) -> Result<(), AllocError>
        ensures noted { (history : List Entry) → StandsFor history self.old
            → OnOk result (StandsFor (Spoke group mi nanos shown ∷ history) self.new) }
        ensures kept { OnErr result (self.new ≡ self.old) }
    {
        self.members.insert((group, mi), Said { nanos, shown })?;
        Ok(())
    }

    /// Where the right frames of a key and sender stood first and last. Costs a look-up.
    pub fn places(&self, key: u32, sci: Sci) -> Option<Places>
        ensures { (history : List Entry) → StandsFor history self.now → result ≡ places key sci history }
    {
        self.uses.get(&(key, sci)).copied()
    }

    /// Appends what is tried of a frame under a key that has these forms, and was set by hand so: the
    /// likeliest first. Costs two look-ups of each member, and as much as there is to try.
    pub fn append_candidates(
        &self,
        tried: &Tried,
        forms: &[Form],
        set: &[Beginning],
        into: &mut Vec<Candidate>,
    ) -> Result<(), AllocError>
        ensures { (history : List Entry) → StandsFor history self.now
            → OnOk result (into.new.items ≡ into.old.items ++ candidates history tried.now forms.now set.now) }
    {
        let shown = self.shown(tried.key, tried.nanos)?;
        let hints = Hints {
            places: self.places(tried.key, tried.sci),
            set,
            shown: &shown,
        };
        append_forms(self.alloc, tried, hints, forms, into)
    }

    /// The high halves of a key that members show at a time in nanoseconds.
    fn shown(&self, key: u32, nanos: u64) -> Result<Vec<u32>, AllocError>
        ensures { (history : List Entry) → StandsFor history self.now
            → IfOk result (λ v. v.items ≡ shown history key nanos) }
    {
        let mut highs = Vec::new(self.alloc);
        for (member, said) in &self.members {
            self.push_said(*member, key, nanos, said, &mut highs)?;
        }
        Ok(highs)
    }

    /// Appends those that a member of a group shows.
    fn push_said(
        &self,
        member: (u32, Mi),
        key: u32,
        nanos: u64,
        said: &Said,
        highs: &mut Vec<u32>,
    ) -> Result<(), AllocError>
        ensures { OnOk result (highs.new.items ≡ highs.old.items
            ++ shown_by (key_in self.now.ids) key nanos (member, said.now)) }
    {
        if is_recent(said.nanos, nanos) {
            self.push_shown(member.0, key, said.shown.latest, highs)?;
            self.push_shown(member.0, key, said.shown.old, highs)?;
        }
        Ok(())
    }

    /// Appends the one that is shown beside an identifier, where its first SAK is this key.
    fn push_shown(
        &self,
        group: u32,
        key: u32,
        shown: Option<ShownHigh>,
        highs: &mut Vec<u32>,
    ) -> Result<(), AllocError>
        ensures { OnOk result (highs.new.items ≡ highs.old.items
            ++ shown_beside (key_in self.now.ids) group key shown) }
    {
        let Some(shown) = shown else {
            return Ok(());
        };
        let at = (group, (shown.id.server, shown.id.number));
        if is_it(self.ids.get(&at).copied(), key) {
            highs.push(shown.high)?;
        }
        Ok(())
    }
}

/// Whether the first key of an identifier is this one.
fn is_it(first: Option<u32>, key: u32) -> bool
    ensures { result ≡ is_it first key }
{
    match first {
        Some(first) => first == key,
        None => false,
    }
}
