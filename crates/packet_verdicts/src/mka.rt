//! Frames of key agreement.

ghost use Rattle.std.specs.Prelude.{◌≡◌, ◌≤◌, Ok, IfOk, length, take};
ghost use Rattle.mkpdu_codec.specs.Reading.{reading};
ghost use Rattle.packet_verdicts.specs.Kinds.{mka_kind, spelled_kind, strange_kind};

use crate::groups::Groups;
use crate::kind::{Kind, Mka};
use mkpdu_codec::{
    Announcement, ReadError, Refusal, Spelled, law_reading_refuses, law_spelled_is_read, read,
};
use std::alloc::{AllocError, Global};

/// What a frame is without the EtherType of MACsec.
pub(crate) fn mka_kind(
    alloc: Global,
    groups: &Groups,
    is_cut: bool,
    frame: &[u8],
) -> Result<Kind, AllocError>
    ensures { IfOk result (λ k. k ≡ mka_kind groups.now is_cut frame.now (reading frame.now)) }
{
    match read_frame(alloc, frame)? {
        Ok(spelled) => {
            let covered = &frame[..spelled.covered];
            Ok(Kind::Mka(spelled_kind(groups, covered, spelled)))
        }
        Err(Refusal::NotMka) => Ok(Kind::Other),
        Err(Refusal::Short) if is_cut => Ok(Kind::Mka(Mka::Cut)),
        Err(refusal) => Ok(Kind::Mka(Mka::Dropped(refusal))),
    }
}

/// What a frame of key agreement is whose check value covers these octets.
fn spelled_kind(groups: &Groups, covered: &[u8], spelled: Spelled) -> Mka
    ensures { result ≡ spelled_kind groups.now covered.now spelled }
{
    match groups.first_right(covered, &spelled) {
        Some(before) => Mka::Right {
            group: before + 1,
            spelled,
        },
        None => strange_kind(groups, spelled.announcement),
    }
}

/// What a frame of key agreement is that is right under no group.
fn strange_kind(groups: &Groups, a: Announcement) -> Mka
    ensures { result ≡ strange_kind groups.now a }
{
    let gives = a.given.is_some();
    if groups.has_name(&a.ckn) {
        Mka::Wrong { gives }
    } else {
        Mka::Unknown {
            ckn: a.ckn,
            sci: a.sci,
            gives,
        }
    }
}

/// What a frame spells, or its first refusal.
fn read_frame(alloc: Global, frame: &[u8]) -> Result<Result<Spelled, Refusal>, AllocError>
    ensures value { IfOk result (λ r. reading frame.now ≡ r) }
    ensures covered { IfOk result (λ r. IfOk r (λ s. s.covered ≤ length frame.now)) }
{
    law_spelled_is_read();
    law_reading_refuses();
    match read(alloc, frame) {
        Ok(spelled) => Ok(Ok(spelled)),
        Err(ReadError::Refused(refusal)) => Ok(Err(refusal)),
        Err(ReadError::Memory) => Err(AllocError),
    }
}
