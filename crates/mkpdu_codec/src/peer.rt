//! The entries of the peer lists.

ghost use Rattle.mkpdu_codec.specs.Sets.{IsPeer};

use lan_base::Mi;
use std::alloc::{AllocError, Global};
use std::marker::Model;

/// What a peer list says of one member (IEEE Std 802.1X, clause 11): its identifier, and the number
/// of the last message that was accepted from it.
#[derive(Clone, Copy, Debug, PartialEq, Eq)]
pub struct Peer {
    pub mi: Mi,
    pub mn: u32,
}

/// A list of peers. Contracts see it as the list.
#[derive(Debug, Drop)]
pub struct Peers {
    peers: Vec<Peer>,
}

impl Model for Peers {
    ghost use Rattle.std.specs.Prelude.{List, All};
    ghost use Rattle.mkpdu_codec.specs.declared.peer.Peer.{Peer};
    ghost use Rattle.mkpdu_codec.specs.Sets.{IsPeer};

    ghost Value = { List Peer };

    ghost view = { λ p. p.peers.items };

    ghost invariant = { λ p. All IsPeer p.peers.items };
}

impl Peers {
    ghost use Rattle.std.specs.Prelude.{◌≡◌, ◌↔◌, ◌++◌, ◌∷◌, [], length, IsTrue, OnOk, OnErr, All};

    /// The empty list, which takes no memory.
    pub fn new(alloc: Global) -> Self
        ensures { result ≡ [] }
    {
        Peers {
            peers: Vec::new(alloc),
        }
    }

    /// How many peers there are.
    pub fn len(&self) -> usize
        ensures { result ≡ length self.now }
    {
        self.peers.len()
    }

    /// Whether there are none.
    pub fn is_empty(&self) -> bool
        ensures { IsTrue result ↔ (self.now ≡ []) }
    {
        self.peers.is_empty()
    }

    /// The peers, in their order.
    pub fn as_slice(&self) -> &[Peer]
        ensures value { result.now ≡ self.now }
        ensures peers { All IsPeer self.now }
    {
        self.peers.as_slice()
    }

    /// Appends a peer. An `Err` leaves the list as it was.
    pub fn push(&mut self, peer: Peer) -> Result<(), AllocError>
        ensures ok { OnOk result (self.new ≡ self.old ++ peer ∷ []) }
        ensures err { OnErr result (self.new ≡ self.old) }
    {
        is_peer(peer);
        self.peers.push(peer)?;
        Ok(())
    }
}

/// A peer has an identifier of 12 octets and a number of 32 bits. Nothing runs.
fn is_peer(peer: Peer)
    ensures { IsPeer peer }
{}

impl PartialEq for Peers {
    ghost use Rattle.std.specs.Prelude.{nat_eq};
    ghost use Rattle.std.specs.Ordering.{on, eq_of_both};
    ghost use Rattle.std.specs.Cmp as Cmp;
    ghost use Rattle.std.specs.Cmp.Lexicographic.{pointwise};
    ghost use Rattle.std.proofs.lemmas.Cmp.{lists_equiv, and_equiv, on_equiv, nat_eq_equiv, nat_list_eq_equiv};

    ghost eq = { pointwise (eq_of_both (on (λ p. p.mi.0) (pointwise nat_eq))
        (on (λ p. p.mn) nat_eq)) };

    ghost laws = { Cmp.partial_equiv_from_equiv
        (lists_equiv (and_equiv (on_equiv (λ p. p.mi.0) nat_list_eq_equiv)
        (on_equiv (λ p. p.mn) nat_eq_equiv))) };

    fn eq(&self, other: &Peers) -> bool {
        self.as_slice() == other.as_slice()
    }
}
