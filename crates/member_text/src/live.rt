//! The live lines.

use lan_base::{AssociationNumber, Mi, Sci};

/// What the peer lists say of a member.
#[derive(Clone, Copy, Debug, PartialEq, Eq)]
pub enum PeerState {
    Live,
    Potential,
    /// The lists do not have it any more.
    Gone,
}

/// What becomes of a receive channel.
#[derive(Clone, Copy, Debug, PartialEq, Eq)]
pub enum ChannelState {
    /// It is made.
    Add,
    /// There are as many channels as there may be, so there is none.
    Full,
    /// It has no association, and belongs to nobody: it goes.
    Remove,
}

/// Why a data path must not have a key.
#[derive(Clone, Copy, Debug, PartialEq, Eq)]
pub enum Withholding {
    /// Its SAK is one that the data path may have had.
    Used,
    /// It is not of the suite that was set.
    Suite,
}

/// What one live line tells of the station whose name it has.
#[derive(Clone, Copy, Debug, PartialEq, Eq)]
pub enum Live {
    /// `peer MI SCI STATE`: what the peer lists say of a member changed.
    Peer {
        mi: Mi,
        sci: Sci,
        state: PeerState,
    },
    /// `channel SCI STATE`.
    Channel {
        sci: Sci,
        state: ChannelState,
    },
    /// `key an A epoch E conf C`: the data path may have the key that was just installed.
    Key {
        an: AssociationNumber,
        epoch: u32,
        confidential: bool,
    },
    /// `withheld an A epoch E WHY`: it must not have it.
    Withheld {
        an: AssociationNumber,
        epoch: u32,
        why: Withholding,
    },
    /// `receive SCI an A`: the association of the key under A is made in this channel.
    Receive {
        sci: Sci,
        an: AssociationNumber,
    },
    /// `done`: the answer ends.
    Done,
}
