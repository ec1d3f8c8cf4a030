//! Octets of a frame as an announcement.

ghost use Rattle.std.specs.Prelude.{◌≡◌, ◌↔◌, ◌≤◌, ◌<◌, ◌^◌, ◌+◌, ◌⊎◌, ℕ, List, length, IfOk, Some, None, Ok, Err};
ghost use Rattle.mkpdu_codec.specs.declared.announcement.Announcement.{Announcement};
ghost use Rattle.mkpdu_codec.specs.declared.refusal.Refusal.{Refusal};
ghost use Rattle.mkpdu_codec.specs.declared.read_error.ReadError.TheVariants.{Refused, Memory};
ghost use Rattle.mkpdu_codec.specs.Frames.{Spells};
ghost use Rattle.mkpdu_codec.specs.Reading.{check_value, parts_at, reading};
ghost use Rattle.mkpdu_codec.specs.Refusals.{is_mka, is_long_enough, is_known, body_length, refused};
ghost use Rattle.mkpdu_codec.specs.inside.Views.{Gives, Answers, inner_of, spelled_of};

use crate::announcement::Announcement;
use crate::basic::{Basic, read_basic};
use crate::distributed_sak::given_of;
use crate::found::{Found, read_found};
use crate::high_halves::highs_of;
use crate::layout::{AGILITY, CHECK_LEN, HEADER_LEN};
use crate::peer_list::peers_of;
use crate::read_error::ReadError;
use crate::refusal::Refusal;
use crate::sak_use::uses_of;
use crate::spelled::Spelled;
use byteorder::{BigEndian, ByteOrder};
use lan_base::{Mac, Octets};
use std::alloc::{AllocError, Global};

/// The parts of a frame that are read: source address, the octets of the parameter sets, and check
/// value.
#[derive(Clone, Copy)]
pub struct Parts<'a> {
    pub source: Mac,
    pub sets: &'a [u8],
    /// The octets of the frame before the check value.
    pub covered: usize,
    pub check: [u8; 16],
}

/// A header of key agreement: a group address, the EtherType of EAPOL, and the packet type of MKA.
fn is_mka_header(frame: &[u8]) -> bool
    ensures { result ≡ is_mka frame.now }
{
    frame.len() >= HEADER_LEN
        && frame[12] == 0x88
        && frame[13] == 0x8e
        && frame[15] == 5
        && frame[0] % 2 == 1
}

/// The length of the EAPOL body, by the header.
fn eapol_len(frame: &[u8]) -> usize
    requires { 18 ≤ length frame.now }
    ensures value { result ≡ body_length frame.now }
    ensures small { result < 2 ^ 16 }
{
    BigEndian::read_u16(&frame[16..]) as usize
}

/// The body has room for a Basic Parameter Set and a check value, and stands in the frame.
fn has_body(frame: &[u8]) -> bool
    requires { 18 ≤ length frame.now }
    ensures { result ≡ is_long_enough frame.now }
{
    let len = eapol_len(frame);
    32 <= len && len % 4 == 0 && HEADER_LEN + len <= frame.len()
}

/// The check value of a frame, where its header says that it has one. The sets before it are not
/// read.
pub fn check_value(frame: &[u8]) -> Option<[u8; CHECK_LEN]>
    ensures { result ≡ check_value frame.now }
{
    if !is_mka_header(frame) || !has_body(frame) {
        return None;
    }
    let (_, behind) = frame.split_at(HEADER_LEN + (eapol_len(frame) - CHECK_LEN));
    let (check, _) = behind.split_first_chunk::<CHECK_LEN>()?;
    Some(*check)
}

/// The parts of a frame, where it is one of MKA and has a body.
#[tactic(auto, unfolding(crate::specs::Reading::parts_at))]
fn read_parts(frame: &[u8]) -> Result<Parts<'_>, Refusal>
    ensures value { Gives inner_of result (parts_at frame.now) }
    ensures within { IfOk result (λ p. p.covered ≡ 18 + length p.sets.now) }
{
    if !is_mka_header(frame) {
        return Err(Refusal::NotMka);
    }
    if !has_body(frame) {
        return Err(Refusal::Short);
    }
    let (_, body) = frame.split_at(HEADER_LEN);
    let (sets, rest) = body.split_at(eapol_len(frame) - CHECK_LEN);
    let (_, behind) = frame.split_at(6);
    let (source, _) = behind.split_first_chunk::<6>().unwrap();
    let (check, _) = rest.split_first_chunk::<16>().unwrap();
    Ok(Parts {
        source: Mac(*source),
        sets,
        covered: HEADER_LEN + sets.len(),
        check: *check,
    })
}

/// What a frame says, in the frame's own memory.
#[derive(Clone, Copy)]
pub struct Borrowed<'a> {
    pub parts: Parts<'a>,
    pub basic: Basic<'a>,
    pub found: Found<'a>,
}

/// The agility is that of the one set of algorithms that there is.
fn is_known_agility(agility: [u8; 4]) -> bool
    ensures { result ≡ is_known agility }
{
    agility.starts_with(&AGILITY)
}

/// Reads a frame without taking memory.
#[tactic(auto, unfolding(crate::specs::Reading::reading))]
fn read_in_place(frame: &[u8]) -> Result<Borrowed<'_>, Refusal>
    ensures { Gives spelled_of result (reading frame.now) }
{
    let parts = read_parts(frame)?;
    let (basic, rest) = read_basic(parts.sets).ok_or(Refusal::Shape { at: HEADER_LEN })?;
    let found = read_found(parts.covered, rest)?;
    if !is_known_agility(basic.agility) {
        return Err(Refusal::Agility);
    }
    Ok(Borrowed {
        parts,
        basic,
        found,
    })
}

/// What a frame says, in memory of its own.
fn owned(alloc: Global, borrowed: Borrowed<'_>) -> Result<Spelled, AllocError>
    ensures { IfOk result (λ s. s ≡ spelled_of borrowed.entry) }
{
    let Borrowed {
        parts,
        basic,
        found,
    } = borrowed;
    let announcement = Announcement {
        source: parts.source,
        priority: basic.priority,
        server: basic.server,
        sci: basic.sci,
        mi: basic.mi,
        mn: basic.mn,
        ckn: Octets::from_slice(alloc, basic.ckn)?,
        live: peers_of(alloc, found.live)?,
        potential: peers_of(alloc, found.potential)?,
        uses: uses_of(found.uses),
        given: given_of(found.given),
        highs: highs_of(found.highs),
    };
    Ok(Spelled {
        announcement,
        covered: parts.covered,
        check: parts.check,
    })
}

/// Reads a frame. Memory is taken only for one without a refusal.
fn spelled(alloc: Global, frame: &[u8]) -> Result<Spelled, ReadError>
    ensures { Answers result (reading frame.now) }
{
    Ok(owned(alloc, read_in_place(frame)?)?)
}

/// Reads a frame: what it spells, or its first refusal.
pub fn read(alloc: Global, frame: &[u8]) -> Result<Spelled, ReadError>
    // What is read is spelled so, and what is spelled so is read, unless memory ran out.
    ensures found { IfOk result (λ s. Spells frame.now s.announcement s.covered s.check) }
    ensures only { (a : Announcement) (covered : ℕ) (check : List ℕ)
        → Spells frame.now a covered check
        → (result ≡ Ok (record { announcement = a; covered = covered; check = check }))
        ⊎ (result ≡ Err Memory) }

    // A refusal is answered exactly where it is the frame's first one, and memory is wanted only
    // where there is none.
    ensures refused { (e : Refusal) → (result ≡ Err (Refused e)) ↔ (refused frame.now ≡ Some e) }
    ensures memory { result ≡ Err Memory → refused frame.now ≡ None }
{
    spelled(alloc, frame)
}
