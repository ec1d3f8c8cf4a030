//! The Live Peer List and the Potential Peer List (IEEE Std 802.1X, clause 11): whom the announcer
//! hears.

ghost use Rattle.std.specs.Prelude.{◌≡◌, ◌≤◌, ◌<◌, ◌+◌, ◌*◌, length, IfOk};
ghost use Rattle.mkpdu_codec.specs.Fields.{entry_at, entries_at, peers_in};
ghost use Rattle.mkpdu_codec.specs.Refusals.{is_peers_length};
ghost use Rattle.lan_base.specs.Room.{HasRoom, Puts};
ghost use Rattle.mkpdu_codec.specs.Sets.{peer, peers_body};
ghost use Rattle.mkpdu_codec.specs.Written.{most_listed, peers_set};
ghost use Rattle.mkpdu_codec.specs.inside.Views.{Finds, seen};

use crate::fields::{read_mi, read_number};
use crate::peer::{Peer, Peers};
use crate::set::{ParameterSet, put_header, set_len};
use lan_base::put;
use std::alloc::{AllocError, Global};

/// How many octets an entry has.
fn entry_len(entry: Peer) -> usize
    ensures value { result ≡ length (peer entry) }
    ensures fixed { result ≡ 16 }
{
    entry.mi.0.len() + 4
}

/// How many octets the body has.
fn body_len(peers: &[Peer]) -> usize
    requires { length peers.now ≤ most_listed }
    ensures value { result ≡ length (peers_body peers.now) }
    ensures entries { result ≡ 16 * length peers.now }
{
    let mut len = 0;
    for entry in peers {
        len += entry_len(*entry);
    }
    len
}

/// How many octets the set has: none where there are no peers.
pub fn peers_len(kind: u8, peers: &Peers) -> usize
    requires { length peers.now ≤ most_listed }
    ensures value { result ≡ length (peers_set kind peers.now) }
    ensures most { result ≤ 4 + 16 * length peers.now }
{
    if peers.is_empty() {
        return 0;
    }
    set_len(body_len(peers.as_slice()))
}

/// Writes an entry: a member identifier and a message number.
#[tactic(auto, using(lan_base::proofs::Public::pieces))]
fn put_entry(entry: Peer, into: &mut Vec<u8>)
    requires { HasRoom into.old (peer entry) }
    ensures { Puts into.old into.new (peer entry) }
{
    put(into, &entry.mi.0);
    put(into, &entry.mn.to_be_bytes());
}

/// Writes the entries, one after the other.
fn put_body(peers: &[Peer], into: &mut Vec<u8>)
    requires { HasRoom into.old (peers_body peers.now) }
    ensures { Puts into.old into.new (peers_body peers.now) }
{
    for entry in peers {
        put_entry(*entry, into);
    }
}

/// Writes the set of one of the two types, where there are peers.
#[tactic(auto, using(lan_base::proofs::Public::pieces))]
pub fn put_peers(kind: u8, peers: &Peers, into: &mut Vec<u8>)
    requires few { length peers.now ≤ most_listed }
    requires room { HasRoom into.old (peers_set kind peers.now) }
    ensures { Puts into.old into.new (peers_set kind peers.now) }
{
    if !peers.is_empty() {
        let len = body_len(peers.as_slice());
        put_header(kind, 0, 0, len, into);
        put_body(peers.as_slice(), into);
    }
}

/// The length of a body: whole entries.
pub fn is_peers_len(len: usize) -> bool
    ensures { result ≡ is_peers_length len }
{
    len % 16 == 0
}

/// Reads the entry in front. The octets that follow it are left.
#[tactic(auto, unfolding(crate::specs::Fields::entry_at))]
fn read_entry(octets: &[u8]) -> Option<(Peer, &[u8])>
    ensures { Finds (λ x. (x.0, x.1.now)) result (entry_at octets.now) }
{
    let (mi, rest) = read_mi(octets)?;
    let (mn, rest) = read_number(rest)?;
    Some((Peer { mi, mn }, rest))
}

/// Reads the entries, into memory of their own.
fn read_entries(alloc: Global, octets: &[u8]) -> Result<Peers, AllocError>
    ensures { IfOk result (λ ps. ps ≡ entries_at (length octets.now) octets.now) }
{
    let mut peers = Peers::new(alloc);
    let mut rest = octets;
    while let Some((peer, behind)) = read_entry(rest) {
        peers.push(peer)?;
        rest = behind;
    }
    Ok(peers)
}

/// The peers of a set: none where there is no set.
#[tactic(auto, unfolding(crate::specs::Fields::peers_in))]
pub fn peers_of(alloc: Global, set: Option<ParameterSet<'_>>) -> Result<Peers, AllocError>
    ensures { IfOk result (λ ps. ps ≡ peers_in (seen set.entry)) }
{
    match set {
        None => Ok(Peers::new(alloc)),
        Some(set) => read_entries(alloc, set.body),
    }
}
