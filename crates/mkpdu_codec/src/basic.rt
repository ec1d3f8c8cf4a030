//! The Basic Parameter Set (IEEE Std 802.1X, clause 11): who announces.

ghost use Rattle.std.specs.Prelude.{◌≡◌, ◌≤◌, ◌+◌, length, IfSome};
ghost use Rattle.mkpdu_codec.specs.Fields.{basic_in, basic_at};
ghost use Rattle.mkpdu_codec.specs.Refusals.{is_basic_length};
ghost use Rattle.lan_base.specs.Ranges.{most_ckn_octets};
ghost use Rattle.lan_base.specs.Room.{HasRoom, Puts};
ghost use Rattle.mkpdu_codec.specs.Sets.{basic_body};
ghost use Rattle.mkpdu_codec.specs.Written.{basic_set};
ghost use Rattle.mkpdu_codec.specs.inside.Views.{Finds, set_of, basics_of};

use crate::announcement::Announcement;
use crate::fields::{read_mi, read_number, read_sci};
use crate::layout::AGILITY;
use crate::set::{ParameterSet, put_header, put_padding, read_set, set_len};
use lan_base::{CKN_MAX, Mi, Sci, put};

/// What the set says.
#[derive(Clone, Copy)]
pub struct Basic<'a> {
    pub priority: u8,
    pub server: bool,
    pub sci: Sci,
    pub mi: Mi,
    pub mn: u32,
    pub agility: [u8; 4],
    pub ckn: &'a [u8],
}

/// The octets of the body's fixed fields, before the name of the connectivity association key.
const FIXED_LEN: usize = 28;

/// How many octets stand in the body before the name.
fn fixed_len(sci: Sci, mi: Mi) -> usize
    ensures value { result ≡ length sci.0 + length mi.0 + 8 }
    ensures fixed { result ≡ FIXED_LEN }
{
    sci.0.len() + mi.0.len() + 8
}

/// How many octets the body has.
fn body_len(announcement: &Announcement) -> usize
    requires { length announcement.now.ckn ≤ most_ckn_octets }
    ensures value { result ≡ length
        (basic_body announcement.now.sci.0 announcement.now.mi.0 announcement.now.mn
        announcement.now.ckn) }
    ensures most { result ≤ 60 }
{
    fixed_len(announcement.sci, announcement.mi) + announcement.ckn.len()
}

/// How many octets the set has.
pub fn basic_len(announcement: &Announcement) -> usize
    requires { length announcement.now.ckn ≤ most_ckn_octets }
    ensures value { result ≡ length (basic_set announcement.now) }
    ensures most { result ≤ 64 }
{
    set_len(body_len(announcement))
}

/// Writes the body: SCI, member identifier, message number, agility, and the name of the key.
#[tactic(auto, using(lan_base::proofs::Public::pieces))]
fn put_body(announcement: &Announcement, into: &mut Vec<u8>)
    requires { HasRoom into.old
        (basic_body announcement.now.sci.0 announcement.now.mi.0 announcement.now.mn
        announcement.now.ckn) }
    ensures { Puts into.old into.new
        (basic_body announcement.now.sci.0 announcement.now.mi.0 announcement.now.mn
        announcement.now.ckn) }
{
    put(into, &announcement.sci.0);
    put(into, &announcement.mi.0);
    put(into, &announcement.mn.to_be_bytes());
    put(into, &AGILITY);
    put(into, announcement.ckn.as_slice());
}

/// Writes the set: of version 1, MACsec desired, with MACsec capability 2.
#[tactic(auto, using(lan_base::proofs::Public::pieces))]
pub fn put_basic(announcement: &Announcement, into: &mut Vec<u8>)
    requires name { length announcement.now.ckn ≤ most_ckn_octets }
    requires room { HasRoom into.old (basic_set announcement.now) }
    ensures { Puts into.old into.new (basic_set announcement.now) }
{
    let len = body_len(announcement);
    let flags = u8::from(announcement.server) * 8 + 6;
    put_header(1, announcement.priority, flags, len, into);
    put_body(announcement, into);
    put_padding(len, into);
}

/// The length of a body: its fixed fields, and a CKN.
fn is_basic_len(len: usize) -> bool
    ensures { result ≡ is_basic_length len }
{
    (FIXED_LEN + 1..=FIXED_LEN + CKN_MAX).contains(&len)
}

/// What the body of a set says, if its length allows.
#[tactic(auto, unfolding(crate::specs::Fields::basic_in))]
fn basic_of<'a>(set: ParameterSet<'a>) -> Option<Basic<'a>>
    ensures { Finds basics_of result (basic_in (set_of set.entry)) }
{
    if !is_basic_len(set.body.len()) {
        return None;
    }
    let (sci, rest) = read_sci(set.body)?;
    let (mi, rest) = read_mi(rest)?;
    let (mn, rest) = read_number(rest)?;
    let (agility, ckn) = rest.split_first_chunk::<4>()?;
    Some(Basic {
        priority: set.second,
        server: set.flags / 8 == 1,
        sci,
        mi,
        mn,
        agility: *agility,
        ckn,
    })
}

/// Reads the set in front, which has a CKN. The octets that follow it are left.
#[tactic(auto, unfolding(crate::specs::Fields::basic_at))]
pub fn read_basic(octets: &[u8]) -> Option<(Basic<'_>, &[u8])>
    ensures value { Finds (λ x. (basics_of x.0, x.1.now)) result (basic_at octets.now) }
    ensures within { IfSome result (λ x. length x.1.now ≤ length octets.now) }
{
    let (set, rest) = read_set(octets)?;
    Some((basic_of(set)?, rest))
}
