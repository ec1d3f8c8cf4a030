//! What a packet is.

ghost use Rattle.std.specs.Prelude.{◌≡◌, ◌≤◌, IfOk, drop, length};
ghost use Rattle.capture_packets.specs.Packets.{seen};
ghost use Rattle.packet_verdicts.specs.Frames.{frame_of};
ghost use Rattle.packet_verdicts.specs.Kinds.{frame_kind, is_cut, packet_kind};

use crate::frame::uncover;
use crate::groups::Groups;
use crate::kind::Kind;
use crate::mka::mka_kind;
use crate::sec::sec_kind;
use capture_packets::Packet;
use gcm_frames::is_sec;
use std::alloc::{AllocError, Global};

/// What a packet is, and where its frame begins among the packet's octets.
#[derive(Debug, Drop, PartialEq)]
pub struct Judged {
    pub kind: Kind,
    pub start: usize,
}

/// What a packet is under the keys of these groups. Its octets from `start` on are its frame
/// afterwards, without VLAN tags; what stands before them is of no use. An `Err` says that memory ran
/// out, and nothing of the packet.
pub fn judge(alloc: Global, groups: &Groups, packet: &mut Packet) -> Result<Judged, AllocError>
    ensures kind { IfOk result (λ j. j.kind ≡ packet_kind groups.now (seen packet.old)) }
    ensures frame { IfOk result (λ j.
        drop j.start packet.new.octets.items ≡ frame_of packet.old.octets.items) }
    ensures start { IfOk result (λ j. j.start ≤ length packet.new.octets.items) }
    ensures head { packet.new.head ≡ packet.old.head }
{
    let is_cut = is_cut(packet);
    let start = uncover(&mut packet.octets);
    let kind = if packet.head.is_ethernet {
        frame_kind(alloc, groups, is_cut, &packet.octets[start..])?
    } else {
        Kind::Foreign
    };
    Ok(Judged { kind, start })
}

/// Whether fewer octets of a packet were kept than there were.
fn is_cut(packet: &Packet) -> bool
    ensures { result ≡ is_cut (seen packet.now) }
{
    packet.octets.len() < packet.head.original as usize
}

/// What a frame of Ethernet is.
fn frame_kind(
    alloc: Global,
    groups: &Groups,
    is_cut: bool,
    frame: &[u8],
) -> Result<Kind, AllocError>
    ensures { IfOk result (λ k. k ≡ frame_kind groups.now is_cut frame.now) }
{
    if is_sec(frame) {
        Ok(Kind::Sec(sec_kind(is_cut, frame)))
    } else {
        mka_kind(alloc, groups, is_cut, frame)
    }
}
