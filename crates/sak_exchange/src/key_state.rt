//! The keys of one life of a station.

ghost use Rattle.std.specs.Prelude.{◌≡◌, ◌+◌, [], List, ℕ, Bool, false, option_map, IfOk, IsOk};
ghost use Rattle.std.specs.Option.{option_map_or};
ghost use Rattle.lan_base.specs.declared.address.Mi.{Mi};
ghost use Rattle.lan_base.specs.Identifiers.{has};
ghost use Rattle.sak_exchange.specs.Histories.{Keying, install_count};
ghost use Rattle.sak_exchange.specs.Held.{latest as latest_after, old as old_after, transmitting as transmitting_after, held};
ghost use Rattle.sak_exchange.specs.Making.{is_in_roster};
ghost use Rattle.sak_exchange.specs.Standing.{StandsFor};
ghost use Rattle.sak_exchange.specs.inside.States.{transmitting_now, allows_now, is_in_roster_now};

mod beginning;
mod ending;
mod installing;
mod making;
mod taking;

use crate::held_key::HeldKey;
use crate::latest::Latest;
use lan_base::{AssociationNumber, Mi};
use std::alloc::{AllocError, Global};
use std::collections::BTreeMap;
use std::marker::Model;
use std::rc::Rc;

/// The keys that a station holds in one life, and what their rules ask of its past. Each call
/// answers what changes. A call that answers an error, which it does for want of memory alone,
/// changes nothing.
///
/// ```text
///     make, take              lead, follow                 retire
///   ------------> installed ---------------> begun -----------------> retired
///                 receives          receives, and transmits
///                     |             until a later key begins
///                     |                        |
///                     +-----------+------------+
///                                 v
///                              dropped
/// ```
///
/// A begun key retires the retire time after a later one began. A key is dropped where no key server
/// is elected, and by an install: under its association number, or where it has not begun.
///
/// After each `tick` comes `drop_all` where no key server is elected then, and else `retire`; all
/// other calls that change the keys come after that.
#[derive(Drop)]
pub struct KeyState {
    alloc: Global,
    own: Mi,
    latest: Option<Latest>,
    former: Option<HeldKey>,
    /// The roster of the key installed last, where this life made it. Copies share it.
    roster: Option<Rc<Vec<Mi>>>,
    /// How many keys this station installed, over all its lives.
    epochs: u32,
    /// The greatest key number installed of each key server, once one is. Copies share the map, and
    /// an install puts another in its place.
    numbers: Option<Rc<BTreeMap<Mi, u32>>>,
    /// How many keys this life made.
    made: u32,
    /// How many ticks ago it made the last one, as far as they can be counted.
    since_made: Option<u32>,
    /// The association number of the key installed last.
    last_an: Option<AssociationNumber>,
}

impl Model for KeyState {
    ghost use Rattle.std.specs.Prelude.{◌≤◌, [], option_map};
    ghost use Rattle.std.specs.Option.{option_map_or};
    ghost use Rattle.sak_exchange.specs.Standing.{State};

    ghost Value = { State };

    ghost view = { λ s. record {
      own = s.own;
      latest = s.latest;
      former = s.former;
      roster = option_map (λ v. v.value.items) s.roster;
      epochs = s.epochs;
      numbers = option_map_or (λ m. m.value.entries) s.numbers [];
      made = s.made;
      since_made = s.since_made;
      last_an = s.last_an;
    } };

    ghost invariant = { λ s. s.made ≤ s.epochs };
}

impl KeyState {
    /// The keys of a life that begins, at a station that installed so many keys in its earlier
    /// lives. An empty state takes no memory, so this never answers an error; a state that reserves
    /// some may.
    pub fn new(alloc: Global, own: Mi, epochs: u32) -> Result<KeyState, AllocError>
        ensures stands { IfOk result (λ s. StandsFor epochs own (false) s []) }
        ensures prompt { IsOk result }
    {
        Ok(KeyState {
            alloc,
            own,
            latest: None,
            former: None,
            roster: None,
            epochs,
            numbers: None,
            made: 0,
            since_made: None,
            last_an: None,
        })
    }

    /// A copy of the keys, which shares with them what grows.
    pub fn copied(&self, alloc: Global) -> Result<KeyState, AllocError>
        ensures { IfOk result (λ copy. copy ≡ self.now) }
    {
        Ok(KeyState {
            alloc,
            own: self.own,
            latest: self.latest,
            former: self.former,
            roster: self.shared_roster()?,
            epochs: self.epochs,
            numbers: self.shared_numbers()?,
            made: self.made,
            since_made: self.since_made,
            last_an: self.last_an,
        })
    }

    /// The roster, with one more owner.
    fn shared_roster(&self) -> Result<Option<Rc<Vec<Mi>>>, AllocError>
        ensures { IfOk result (λ roster. option_map (λ v. v.value.items) roster ≡ self.now.roster) }
    {
        match &self.roster {
            Some(roster) => Ok(Some(roster.clone()?)),
            None => Ok(None),
        }
    }

    /// The key numbers, with one more owner.
    fn shared_numbers(&self) -> Result<Option<Rc<BTreeMap<Mi, u32>>>, AllocError>
        ensures { IfOk result (λ numbers.
            option_map_or (λ m. m.value.entries) numbers [] ≡ self.now.numbers) }
    {
        match &self.numbers {
            Some(numbers) => Ok(Some(numbers.clone()?)),
            None => Ok(None),
        }
    }

    /// Whether this life made the latest key, and the member is in its roster.
    pub fn in_roster(&self, mi: &Mi) -> bool
        ensures { (base : ℕ) (own : Mi) (h : List Keying) → StandsFor base own false self.now h →
            result ≡ is_in_roster h mi.now }
    {
        self.lists(mi)
    }

    /// How many keys this station installed so far, over all its lives.
    pub fn epochs(&self) -> u32
        ensures value { result ≡ self.now.epochs }
        ensures counted { (base : ℕ) (own : Mi) (pending : Bool) (h : List Keying) →
            StandsFor base own pending self.now h → result ≡ base + install_count h }
    {
        self.epochs
    }

    /// The latest key. Between a tick and what follows it, this and the next two answer as before
    /// the tick.
    pub fn latest(&self) -> Option<HeldKey>
        ensures { (base : ℕ) (own : Mi) (pending : Bool) (h : List Keying) →
            StandsFor base own pending self.now h → result ≡ option_map (held h) (latest_after h) }
    {
        self.latest.map(|latest| latest.held)
    }

    /// The old key.
    pub fn old(&self) -> Option<HeldKey>
        ensures { (base : ℕ) (own : Mi) (pending : Bool) (h : List Keying) →
            StandsFor base own pending self.now h → result ≡ option_map (held h) (old_after h) }
    {
        self.former
    }

    /// The key under which frames are sent.
    pub fn transmitting(&self) -> Option<HeldKey>
        ensures { (base : ℕ) (own : Mi) (pending : Bool) (h : List Keying) →
            StandsFor base own pending self.now h → result
            ≡ option_map (held h) (transmitting_after h) }
    {
        self.current()
    }

    /// The key that transmits.
    fn current(&self) -> Option<HeldKey>
        ensures { result ≡ transmitting_now self.now }
    {
        match &self.latest {
            Some(latest) if latest.held.begun => Some(latest.held),
            _ => self.former,
        }
    }

    /// Whether a key may be installed.
    fn allows(&self) -> bool
        ensures { result ≡ allows_now self.now }
    {
        match &self.latest {
            Some(latest) => !(latest.held.begun && self.former.is_some()),
            None => true,
        }
    }

    /// Whether this life made the latest key, and the member is in its roster.
    fn lists(&self, mi: &Mi) -> bool
        ensures { result ≡ is_in_roster_now self.now mi.now }
    {
        match &self.roster {
            Some(roster) => self.latest.is_some() && has(roster.as_slice(), mi),
            None => false,
        }
    }
}

/// Whether a member is in a list.
fn has(members: &[Mi], mi: &Mi) -> bool
    ensures { result ≡ has mi.now members.now }
{
    members.iter().any(|member| member == mi)
}
