//! Events at stations that may take part in two groups.

ghost use Rattle.std.specs.Prelude.{◌<◌, All};
ghost use Rattle.gcm_frames.specs.Protected.{IsSci};
ghost use Rattle.lan_base.specs.Name.{IsName};
ghost use Rattle.cak_roll.specs.Unstopped.{IsTypedTwin};

use lan_base::{Name, Sci};

/// One of the two groups.
#[derive(Clone, Copy, Debug, PartialEq, Eq)]
pub enum GroupNumber {
    /// The group in which each station starts.
    First,
    /// The group with the other CAK and CKN.
    Second,
}

impl GroupNumber {
    ghost use Rattle.std.specs.Prelude.{◌≡◌};
    ghost use Rattle.cak_roll.specs.Twin.{same_group};

    /// Whether two groups are one.
    pub(crate) fn is(self, other: GroupNumber) -> bool
        ensures { result ≡ same_group self other }
    {
        match (self, other) {
            (GroupNumber::First, GroupNumber::First) => true,
            (GroupNumber::Second, GroupNumber::Second) => true,
            _ => false,
        }
    }
}

/// One event at stations that may take part in two groups. A station is named by its place in the
/// order of the starts, from 0, a frame of a group's air and a user frame by its number, from 1.
#[derive(Drop)]
pub enum TwinEvent {
    /// A station begins its first life in the first group.
    Start {
        name: Name,
        sci: Sci,
        priority: u8,
    },
    /// A station that takes part in the first group, or left it, begins in the second group.
    Adopt {
        station: u8,
    },
    /// A station takes part in a group no more.
    Leave {
        station: u8,
        group: GroupNumber,
    },
    /// A tick of 0.1 s at one station in a group.
    Tick {
        station: u8,
        group: GroupNumber,
    },
    /// A frame of a group's air reaches a station.
    Deliver {
        group: GroupNumber,
        frame: u32,
        station: u8,
    },
    /// A station loses all that it knows of each group in which it takes part, and begins a new
    /// life there.
    Restart {
        station: u8,
    },
    /// A station sends a user frame in the group that is to carry it.
    Send {
        station: u8,
        user: u32,
    },
}

/// The fields of an event lie in their types. Nothing runs.
pub(crate) fn law_fields_are_typed(event: &TwinEvent)
    ensures { IsTypedTwin event.now }
{
    match event {
        TwinEvent::Start {
            name,
            sci,
            priority,
        } => {
            law_names_are_spelled(name);
            law_channels_are_whole(sci);
            let _priority = *priority;
        }
        TwinEvent::Deliver { frame, .. } => {
            let _frame = *frame;
        }
        TwinEvent::Send { user, .. } => {
            let _user = *user;
        }
        _ => {}
    }
}

/// The octets of a name spell one.
fn law_names_are_spelled(name: &Name)
    ensures { IsName name.now }
{
    name.octets();
}

/// A secure channel identifier has its 8 octets. Nothing runs.
fn law_channels_are_whole(sci: &Sci)
    ensures { IsSci sci.now }
{
    law_octets_are_small(&sci.0);
}

/// Each octet is below 256. Nothing runs.
fn law_octets_are_small(octets: &[u8])
    ensures { All (λ octet. octet < 256) octets.now }
{}
