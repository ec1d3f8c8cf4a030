//! Frames with the EtherType of MACsec.

ghost use Rattle.std.specs.Prelude.{◌≡◌, ◌+◌, ◌≤◌, IfOk, length};
ghost use Rattle.gcm_frames.specs.Sealed.{check_octets};
ghost use Rattle.packet_verdicts.specs.Kinds.{is_of_end, sec_kind, tagged_kind};

use crate::kind::{Malformed, Sec};
use gcm_frames::{Tag, TagRefusal, implied_tag_of};
use lan_base::FRAME_MAX;

/// Where the short length of a frame stands.
const SHORT_LENGTH: usize = 15;

/// What a frame is that has the EtherType of MACsec.
pub(crate) fn sec_kind(is_cut: bool, frame: &[u8]) -> Sec
    ensures { result ≡ sec_kind is_cut frame.now }
{
    if frame.len() > FRAME_MAX {
        return Sec::Malformed(Malformed::Long);
    }
    tagged_kind(is_cut, frame, implied_tag_of(frame))
}

/// What it is by what its SecTAG says.
fn tagged_kind(is_cut: bool, frame: &[u8], fields: Result<Tag, TagRefusal>) -> Sec
    requires { IfOk fields (λ tag. tag.start + tag.len + 16 ≤ length frame.now) }
    ensures { result ≡ tagged_kind is_cut frame.now fields }
{
    match fields {
        Ok(_) if is_cut && frame[SHORT_LENGTH] == 0 => Sec::Cut,
        Ok(tag) => Sec::Protected {
            tag,
            check: check_of(&tag, frame),
        },
        Err(refusal) if is_cut && is_of_end(refusal) => Sec::Cut,
        Err(refusal) => Sec::Malformed(Malformed::Refused(refusal)),
    }
}

/// Whether a frame is refused because of where it ends.
fn is_of_end(refusal: TagRefusal) -> bool
    ensures { result ≡ is_of_end refusal }
{
    matches!(&refusal, TagRefusal::Short | TagRefusal::SlWrong)
}

/// The 16 octets of tag behind the secure data.
fn check_of(tag: &Tag, frame: &[u8]) -> [u8; 16]
    requires { tag.now.start + tag.now.len + 16 ≤ length frame.now }
    ensures { result ≡ check_octets tag.now frame.now }
{
    let (_, behind) = frame.split_at(tag.start + tag.len);
    let (check, _) = behind.split_first_chunk::<16>().unwrap();
    *check
}
