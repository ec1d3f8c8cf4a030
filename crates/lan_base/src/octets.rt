//! Lists of octets.

ghost use Rattle.std.specs.Prelude.{◌≡◌, ◌↔◌, ◌++◌, ◌<◌, List, ℕ, [], length, nat_eq, IsTrue, IfOk, OnOk, OnErr, All};
ghost use Rattle.std.specs.Cmp as Cmp;
ghost use Rattle.std.specs.Cmp.Lexicographic.{pointwise};
ghost use Rattle.std.proofs.lemmas.Cmp.{nat_list_eq_equiv};

use std::alloc::{AllocError, Global};
use std::marker::Model;

/// A list of octets on the heap. Contracts see it as the list.
#[derive(Debug, Drop)]
pub struct Octets {
    octets: Vec<u8>,
}

impl Model for Octets {
    ghost Value = { List ℕ };

    ghost view = { λ o. o.octets.items };
}

impl Octets {
    /// The empty list, which takes no memory.
    pub fn new(alloc: Global) -> Self
        ensures { result ≡ [] }
    {
        Octets {
            octets: Vec::new(alloc),
        }
    }

    /// The octets of a vector, in its memory.
    pub fn of(octets: Vec<u8>) -> Self
        ensures { result ≡ octets.items }
    {
        Octets { octets }
    }

    /// A copy of a slice.
    pub fn from_slice(alloc: Global, octets: &[u8]) -> Result<Self, AllocError>
        ensures { IfOk result (λ o. o ≡ octets.now) }
    {
        let octets = Vec::from_slice(alloc, octets)?;
        Ok(Octets { octets })
    }

    /// How many octets there are.
    pub fn len(&self) -> usize
        ensures { result ≡ length self.now }
    {
        self.octets.len()
    }

    /// Whether there are none.
    pub fn is_empty(&self) -> bool
        ensures { IsTrue result ↔ (self.now ≡ []) }
    {
        self.octets.is_empty()
    }

    /// The octets.
    pub fn as_slice(&self) -> &[u8]
        ensures value { result.now ≡ self.now }
        ensures octets { All (λ o. o < 256) self.now }
    {
        let octets = self.octets.as_slice();
        are_octets(octets);
        octets
    }

    /// Appends octets. An `Err` leaves the list as it was.
    pub fn extend(&mut self, more: &[u8]) -> Result<(), AllocError>
        ensures ok { OnOk result (self.new ≡ self.old ++ more.now) }
        ensures err { OnErr result (self.new ≡ self.old) }
    {
        self.octets.extend_from_slice(more)
    }

    /// A copy of the list.
    pub fn copied(&self, alloc: Global) -> Result<Self, AllocError>
        ensures { IfOk result (λ o. o ≡ self.now) }
    {
        Octets::from_slice(alloc, self.as_slice())
    }
}

/// Each member of a slice of octets is below 256. Nothing runs.
fn are_octets(octets: &[u8])
    ensures { All (λ o. o < 256) octets.now }
{}

impl PartialEq for Octets {
    ghost eq = { pointwise nat_eq };

    ghost laws = { Cmp.partial_equiv_from_equiv nat_list_eq_equiv };

    fn eq(&self, other: &Octets) -> bool {
        self.as_slice() == other.as_slice()
    }
}

impl Eq for Octets {
    ghost laws = { nat_list_eq_equiv };
}
