//! Whether a frame counts, which all stations of a group judge alike.

ghost use Rattle.std.specs.Prelude.{◌≡◌, ◌≤◌, Ok, IfOk, IfErr, length, take};
ghost use Rattle.mkpdu_codec.specs.Reading.{reading};
ghost use Rattle.mka_station.specs.declared.verdict.DropReason.{DropReason};
ghost use Rattle.mka_station.specs.Lives.{Setup};
ghost use Rattle.mka_station.specs.Hearing.{judged};
ghost use Rattle.mka_station.specs.inside.Turns.{IsRefused, fault_of};

use crate::verdict::DropReason;
use aes_cmac::cmac;
use mka_kdf::Group;
use mkpdu_codec::{
    Announcement, ReadError, Spelled, law_reading_refuses, law_spelled_is_read, read,
};
use std::alloc::{AllocError, Global};

/// The announcement of a frame of a group, or why its stations drop the frame before anything is
/// known of its member. It is the same for each station that is set up with the group's name and
/// integrity check key.
pub fn judge(
    alloc: Global,
    group: &Group,
    frame: &[u8],
) -> Result<Result<Announcement, DropReason>, AllocError>
    ensures { (setup : Setup) → setup.ckn ≡ group.now.ckn → setup.ick ≡ group.now.ick
        → IfOk result (λ j. j ≡ judged setup frame.now) }
{
    let spelled = match read_frame(alloc, frame)? {
        Ok(spelled) => spelled,
        Err(reason) => return Ok(Err(reason)),
    };
    let Spelled {
        announcement,
        covered,
        check,
    } = spelled;
    match fault(group, &announcement, &frame[..covered], &check) {
        Some(reason) => Ok(Err(reason)),
        None => Ok(Ok(announcement)),
    }
}

/// Why an announcement is dropped that covered octets spell, with this check value over them: it is
/// not of the group.
fn fault(
    group: &Group,
    announcement: &Announcement,
    covered: &[u8],
    check: &[u8; 16],
) -> Option<DropReason>
    ensures { result ≡ fault_of group.now.ckn group.now.ick announcement.now covered.now check.now }
{
    if announcement.ckn != group.ckn {
        return Some(DropReason::CkName);
    }
    if cmac(&group.ick, covered) != *check {
        return Some(DropReason::Check);
    }
    None
}

/// What a frame spells, or why it is dropped.
fn read_frame(alloc: Global, frame: &[u8]) -> Result<Result<Spelled, DropReason>, AllocError>
    ensures ok { IfOk result (λ r. IfOk r (λ s. reading frame.now ≡ Ok s)) }
    ensures covered { IfOk result (λ r. IfOk r (λ s. s.covered ≤ length frame.now)) }
    ensures err { IfOk result (λ r. IfErr r (λ reason. IsRefused frame.now reason)) }
{
    law_spelled_is_read();
    law_reading_refuses();
    match read(alloc, frame) {
        Ok(spelled) => Ok(Ok(spelled)),
        Err(ReadError::Refused(refusal)) => Ok(Err(DropReason::Unspelled(refusal))),
        Err(ReadError::Memory) => Err(AllocError),
    }
}
