//! MACsec SAK Use (IEEE Std 802.1X, clause 11): which keys the announcer uses.

ghost use Rattle.std.specs.Prelude.{◌≡◌, ◌≤◌, ◌<◌, length};
ghost use Rattle.mkpdu_codec.specs.Fields.{key_at, uses_in};
ghost use Rattle.mkpdu_codec.specs.Refusals.{is_uses_length};
ghost use Rattle.lan_base.specs.Room.{HasRoom, Puts};
ghost use Rattle.mkpdu_codec.specs.Sets.{use_body, use_flags, uses_body};
ghost use Rattle.mkpdu_codec.specs.Written.{uses_set};
ghost use Rattle.mkpdu_codec.specs.inside.Views.{Finds, seen};

use crate::fields::{an_of, read_mi, read_number};
use crate::key_use::{KeyUse, Uses};
use crate::layout::SAK_USE;
use crate::set::{ParameterSet, put_header, set_len};
use lan_base::put;

/// How many octets the body has.
fn body_len(uses: Uses) -> usize
    ensures value { result ≡ length (uses_body uses) }
    ensures fixed { result ≡ 40 }
{
    uses.latest.server.0.len() + 8 + uses.old.server.0.len() + 8
}

/// How many octets the set has.
pub fn uses_len(uses: &Option<Uses>) -> usize
    ensures value { result ≡ length (uses_set uses.now) }
    ensures most { result ≤ 44 }
{
    match uses {
        None => 0,
        Some(uses) => set_len(body_len(*uses)),
    }
}

/// One key in the second octet: two bits of association number, transmits, receives.
fn flags_of(key: &KeyUse) -> u8
    ensures value { result ≡ use_flags key.now }
    ensures small { result < 16 }
{
    key.an.number() * 4 + u8::from(key.tx) * 2 + u8::from(key.rx)
}

/// Writes one key: the server, the key number, and the lowest acceptable packet number.
#[tactic(auto, using(lan_base::proofs::Public::pieces))]
fn put_key(key: &KeyUse, into: &mut Vec<u8>)
    requires { HasRoom into.old (use_body key.now) }
    ensures { Puts into.old into.new (use_body key.now) }
{
    put(into, &key.server.0);
    put(into, &key.number.to_be_bytes());
    put(into, &key.lowest.to_be_bytes());
}

/// Writes the latest key, and then the old one.
#[tactic(auto, using(lan_base::proofs::Public::pieces))]
fn put_body(uses: &Uses, into: &mut Vec<u8>)
    requires { HasRoom into.old (uses_body uses.now) }
    ensures { Puts into.old into.new (uses_body uses.now) }
{
    put_key(&uses.latest, into);
    put_key(&uses.old, into);
}

/// Writes the set, where there is one.
#[tactic(auto, using(lan_base::proofs::Public::pieces))]
pub fn put_uses(uses: &Option<Uses>, into: &mut Vec<u8>)
    requires { HasRoom into.old (uses_set uses.now) }
    ensures { Puts into.old into.new (uses_set uses.now) }
{
    if let Some(uses) = uses {
        let flags = flags_of(&uses.latest) * 16 + flags_of(&uses.old);
        put_header(SAK_USE, flags, 0, body_len(*uses), into);
        put_body(uses, into);
    }
}

/// The length of a body: that of two keys, or nothing.
pub fn is_uses_len(len: usize) -> bool
    ensures { result ≡ is_uses_length len }
{
    len == 0 || len == 40
}

/// Reads one key from its half of the second octet and its part of the body.
#[tactic(auto, unfolding(crate::specs::Fields::key_at))]
fn read_key(bits: u8, octets: &[u8]) -> Option<(KeyUse, &[u8])>
    ensures { Finds (λ x. (x.0, x.1.now)) result (key_at bits octets.now) }
{
    let (server, rest) = read_mi(octets)?;
    let (number, rest) = read_number(rest)?;
    let (lowest, rest) = read_number(rest)?;
    let key = KeyUse {
        server,
        number,
        an: an_of(bits / 4),
        tx: bits / 2 % 2 == 1,
        rx: bits % 2 == 1,
        lowest,
    };
    Some((key, rest))
}

/// The uses of a set: none where there is no set, or an empty one.
#[tactic(auto, unfolding(crate::specs::Fields::uses_in))]
pub fn uses_of(set: Option<ParameterSet<'_>>) -> Option<Uses>
    ensures { result ≡ uses_in (seen set.entry) }
{
    let set = set?;
    let (latest, rest) = read_key(set.second / 16, set.body)?;
    let (old, _) = read_key(set.second % 16, rest)?;
    Some(Uses { latest, old })
}
