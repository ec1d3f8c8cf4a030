//! The lines of the key text.

use lan_base::{Octets, Sci};

/// Whose frames a key protects that was set by hand.
#[derive(Clone, Copy, Debug, PartialEq, Eq)]
pub enum Sender {
    /// Those of any sender.
    Any,
    /// Those of this one.
    One(Sci),
}

/// One line of the key text.
#[derive(Debug, Drop)]
pub enum KeyLine {
    /// `group CAK CKN`: a group.
    Group {
        cak: Octets,
        ckn: Octets,
    },
    /// `sak SCI AN SAK`: a key set by hand, with its association number.
    Sak {
        sender: Sender,
        an: u32,
        sak: Octets,
    },
    /// `capture`: the key text ends, and the capture begins behind this line.
    Capture,
}
