//! What a data frame comes to.

use gcm_frames::TagRefusal;
use lan_base::{AssociationNumber, Octets, Sci};

/// The answer to a data frame: the first of these that applies, `Accepted` where no other does.
#[derive(Debug, Drop)]
pub enum Arrival {
    /// The frame's packet number, and its user data in plain.
    Accepted { pn: u32, body: Octets },
    /// The frame is no protected frame.
    Malformed(TagRefusal),
    /// The station itself is the sender.
    Own,
    /// No key stands under the frame's association number.
    Missed { an: AssociationNumber },
    /// The tag is not that of the frame under the key.
    BadCheck,
    /// The packet number is 0, or is below the sender's next one by more than the window.
    Late { next: u64 },
}

/// The answer to a data frame before its packet number is looked at.
#[derive(Debug, Drop)]
pub enum Checked {
    /// The frame is no protected frame.
    Malformed(TagRefusal),
    /// The station itself is the sender.
    Own,
    /// No key stands under the frame's association number.
    Missed {
        an: AssociationNumber,
    },
    /// The tag is not that of the frame under the key.
    BadCheck,
    /// The tag is right: the sender, the association number, the packet number, and the user data
    /// in plain.
    Sealed {
        sci: Sci,
        an: AssociationNumber,
        pn: u32,
        body: Octets,
    },
}
