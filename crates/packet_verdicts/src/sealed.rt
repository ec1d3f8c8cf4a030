//! Under which of the keys that are known to it a protected frame is right.

ghost use Rattle.std.specs.Prelude.{◌≡◌, ◌≤◌, Ok, length};
ghost use Rattle.gcm_frames.specs.Tags.{implied_fields};
ghost use Rattle.lan_base.specs.Ranges.{most_frame_octets};
ghost use Rattle.packet_verdicts.specs.Right.{is_right, newest_right};

use gcm_core::GcmKey;
use gcm_frames::{Tag, is_sealed};

/// The newest of the keys known to a protected frame under which the frame is right: the first number
/// among the candidates, newest first, whose key seals it. Keys are numbered from 1. `tag` is what the
/// frame says of itself. Nothing is deciphered.
pub fn newest_right(keys: &[GcmKey], candidates: &[u32], tag: &Tag, frame: &[u8]) -> Option<u32>
    requires tag { implied_fields frame.now ≡ Ok tag.now }
    requires length { length frame.now ≤ most_frame_octets }
    ensures { result ≡ newest_right keys.now tag.now frame.now candidates.now }
{
    for number in candidates {
        if is_right(keys, *number, tag, frame) {
            return Some(*number);
        }
    }
    None
}

/// Whether a frame is right under the key with this number.
#[tactic(auto, using(gcm_frames::proofs::Public::implied_within))]
fn is_right(keys: &[GcmKey], number: u32, tag: &Tag, frame: &[u8]) -> bool
    requires tag { implied_fields frame.now ≡ Ok tag.now }
    requires length { length frame.now ≤ most_frame_octets }
    ensures { result ≡ is_right keys.now tag.now frame.now number }
{
    if number == 0 {
        return false;
    }
    match keys.get(number as usize - 1) {
        Some(key) => is_sealed(key, tag, frame),
        None => false,
    }
}
