//! An announcement as the octets of a frame.

ghost use Rattle.std.specs.Prelude.{◌≡◌, ◌≤◌, ◌<◌, ℕ, ◌+◌, ◌*◌, ◌++◌, ◌^◌, List, length, IsOk, OnOk, OnErr};
ghost use Rattle.lan_base.specs.Room.{HasRoom, Puts};
ghost use Rattle.std.specs.Vec.{vec_capacity};
ghost use Rattle.mkpdu_codec.specs.Written.{frame_header, sets, written, most_written, IsWritable};
ghost use Rattle.mkpdu_codec.specs.Frames.{IsOfItsTypes, Spells};

use crate::announcement::Announcement;
use crate::basic::{basic_len, put_basic};
use crate::distributed_sak::{given_len, put_given};
use crate::given::is_given;
use crate::high_halves::are_highs;
use crate::key_use::are_uses;
use crate::layout::{CHECK_LEN, LIVE_PEERS, POTENTIAL_PEERS};
use crate::peer_list::{peers_len, put_peers};
use crate::sak_use::{put_uses, uses_len};
use lan_base::{Mac, Mi, Sci, put};
use std::alloc::AllocError;

/// The group address that MKA frames are sent to.
const GROUP_ADDRESS: [u8; 6] = [0x01, 0x80, 0xc2, 0x00, 0x00, 0x03];

/// EtherType of EAPOL, version 3, packet type MKA.
const EAPOL_MKA: [u8; 4] = [0x88, 0x8e, 3, 5];

/// How many octets the header has.
fn header_len(source: Mac) -> usize
    ensures value { (n : ℕ) → result ≡ length (frame_header source.0 n) }
    ensures fixed { result ≡ 18 }
{
    source.0.len() + 12
}

/// How many octets the sets have.
fn sets_len(announcement: &Announcement) -> usize
    requires { IsWritable announcement.now }
    ensures value { result ≡ length (sets announcement.now) }
    ensures most { result ≤ 172 + 16 * (length announcement.now.live
        + length announcement.now.potential) }
{
    basic_len(announcement)
        + peers_len(LIVE_PEERS, &announcement.live)
        + peers_len(POTENTIAL_PEERS, &announcement.potential)
        + uses_len(&announcement.uses)
        + given_len(announcement.given)
}

/// Writes the octets before the parameter sets, with the length of the EAPOL body.
#[tactic(auto, using(lan_base::proofs::Public::pieces))]
fn put_header(source: Mac, length: u16, into: &mut Vec<u8>)
    requires { HasRoom into.old (frame_header source.0 length) }
    ensures { Puts into.old into.new (frame_header source.0 length) }
{
    put(into, &GROUP_ADDRESS);
    put(into, &source.0);
    put(into, &EAPOL_MKA);
    put(into, &length.to_be_bytes());
}

/// Writes the parameter sets, in their order.
#[tactic(auto, using(lan_base::proofs::Public::pieces))]
fn put_sets(announcement: &Announcement, into: &mut Vec<u8>)
    requires writable { IsWritable announcement.now }
    requires room { HasRoom into.old (sets announcement.now) }
    ensures { Puts into.old into.new (sets announcement.now) }
{
    put_basic(announcement, into);
    put_peers(LIVE_PEERS, &announcement.live, into);
    put_peers(POTENTIAL_PEERS, &announcement.potential, into);
    put_uses(&announcement.uses, into);
    put_given(&announcement.given, into);
}

/// A secure channel identifier, a member identifier and a message number are in the ranges of their
/// types. Nothing runs.
fn are_identifiers(sci: Sci, mi: Mi, mn: u32)
    ensures sci { length sci.0 ≡ 8 }
    ensures mi { length mi.0 ≡ 12 }
    ensures mn { mn < 2 ^ 32 }
{}

/// The values of an announcement are in the ranges of their types.
fn is_of_its_types(announcement: &Announcement)
    ensures { IsOfItsTypes announcement.now }
{
    are_identifiers(announcement.sci, announcement.mi, announcement.mn);
    let _ = announcement.live.as_slice();
    let _ = announcement.potential.as_slice();
    are_uses(announcement.uses);
    if let Some(given) = announcement.given {
        is_given(given);
    }
    are_highs(announcement.highs);
}

/// How many octets `write` appends.
pub fn written_len(announcement: &Announcement) -> usize
    requires { IsWritable announcement.now }
    ensures value { result ≡ length (written announcement.now) }
    ensures most { result ≤ most_written (length announcement.now.live
        + length announcement.now.potential) }
{
    header_len(announcement.source) + sets_len(announcement)
}

/// Appends the frame of an announcement without its check value, which is to be appended behind it.
#[tactic(auto, using(lan_base::proofs::Public::pieces))]
pub fn write(announcement: &Announcement, into: &mut Vec<u8>) -> Result<(), AllocError>
    requires { IsWritable announcement.now }

    // The octets are appended, or nothing is; where there is room for them, they are.
    ensures ok { OnOk result (into.new.items ≡ into.old.items ++ written announcement.now) }
    ensures err { OnErr result (into.new.items ≡ into.old.items) }
    ensures room { length into.old.items + length (written announcement.now) ≤ vec_capacity into.old
        → IsOk result }
    ensures capacity { vec_capacity into.old ≤ vec_capacity into.new }

    // With any check value behind them they spell the announcement.
    ensures spells { (check : List ℕ) → length check ≡ 16
        → Spells (written announcement.now ++ check) announcement.now
        (length (written announcement.now)) check }
{
    is_of_its_types(announcement);
    into.reserve(written_len(announcement))?;
    put_header(
        announcement.source,
        (sets_len(announcement) + CHECK_LEN) as u16,
        into,
    );
    put_sets(announcement, into);
    Ok(())
}
