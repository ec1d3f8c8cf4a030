//! Laws of packets, their frames and the keys under which these are right.

ghost use Rattle.std.specs.Prelude.{◌≡◌, ◌↔◌, ◌++◌, List, ℕ, Some, drop, take, true};
ghost use Rattle.aes_block.specs.Aes.{IsKey};
ghost use Rattle.capture_packets.specs.Packets.{Seen};
ghost use Rattle.gcm_frames.specs.declared.tag.Tag.{Tag};
ghost use Rattle.gcm_frames.specs.Protected.{IsSci};
ghost use Rattle.gcm_frames.specs.Sealed.{IsSealed};
ghost use Rattle.mkpdu_codec.specs.declared.announcement.Announcement.{Announcement};
ghost use Rattle.mkpdu_codec.specs.Frames.{Spells};
ghost use Rattle.packet_verdicts.specs.Frames.{IsTagged, frame_of};
ghost use Rattle.packet_verdicts.specs.Groups.{GroupKeys};
ghost use Rattle.packet_verdicts.specs.Kinds.{Fits, packet_kind};
ghost use Rattle.packet_verdicts.specs.Right.{is_right, key_numbered};

use gcm_frames::law_opened_is_sealed;

/// The frame of addresses, VLAN tags and what stands behind these is that without the tags.
pub fn law_tags_before_the_frame()
    ensures { (addresses behind packet : List ℕ) (tags : List (List ℕ))
        → IsTagged addresses tags behind packet → frame_of packet ≡ addresses ++ behind }
{}

/// Of a protected frame the fields are its own, and it is no longer than a frame may be; and the group
/// of a right frame of key agreement is there.
pub fn law_kind_fits()
    ensures { (groups : List GroupKeys) (packet : Seen)
        → Fits groups (frame_of packet.octets) (packet_kind groups packet) }
{}

/// The check value of a frame of key agreement is the 16 octets behind those that it covers: VLAN tags,
/// padding and what else stands behind are no part of either.
pub fn law_check_is_behind()
    ensures { (frame check : List ℕ) (a : Announcement) (covered : ℕ)
        → Spells frame a covered check → check ≡ take 16 (drop covered frame) }
{}

/// A frame is right under a key exactly where the key seals it.
pub fn law_right_is_sealed()
    ensures { (keys : List (List ℕ)) (tag : Tag) (frame key : List ℕ) (number : ℕ)
        → key_numbered keys number ≡ Some key → IsKey key → IsSci tag.sci
        → (is_right keys tag frame number ≡ true) ↔ IsSealed key tag frame }
{
    law_opened_is_sealed();
}
