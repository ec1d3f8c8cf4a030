//! What a packet is.

use gcm_frames::{Tag, TagRefusal};
use lan_base::{Octets, Sci};
use mkpdu_codec::{Refusal, Spelled};

/// Why a frame with the EtherType of MACsec can't be judged.
#[derive(Clone, Copy, Debug, PartialEq, Eq)]
pub enum Malformed {
    /// It has more octets than a frame may have.
    Long,
    /// Its SecTAG is refused.
    Refused(TagRefusal),
}

/// What a frame with the EtherType of MACsec is.
#[derive(Clone, Copy, Debug, PartialEq, Eq)]
pub enum Sec {
    /// Its end was not kept.
    Cut,
    Malformed(Malformed),
    /// It is to be judged: its fields, and the 16 octets of tag behind its secure data.
    Protected { tag: Tag, check: [u8; 16] },
}

/// What a frame of key agreement (MKPDU) is.
#[derive(Debug, Drop, PartialEq)]
pub enum Mka {
    /// Its end was not kept.
    Cut,
    /// It spells nothing.
    Dropped(Refusal),
    /// No group has its CKN: that, its SCI, and whether it distributes a key.
    Unknown { ckn: Octets, sci: Sci, gives: bool },
    /// Groups have its CKN, and none of their integrity check keys gives its check value.
    Wrong { gives: bool },
    /// It is of a group: the group's number, from 1, and what it spells.
    Right { group: usize, spelled: Spelled },
}

/// What a packet is: the first of these that applies.
#[derive(Debug, Drop, PartialEq)]
pub enum Kind {
    /// Its link is not Ethernet.
    Foreign,
    /// It has the EtherType of MACsec.
    Sec(Sec),
    /// It is a frame of key agreement.
    Mka(Mka),
    Other,
}
