//! An MKPDU that is right under a group.

ghost use Rattle.std.specs.Prelude.{◌≡◌};
ghost use Rattle.member_notes.specs.Mkpdus.{note_of, same_check};

use lan_base::Mi;

/// An MKPDU of a capture (IEEE Std 802.1X, clause 11) that is right under a group.
#[derive(Clone, Copy, Debug, PartialEq, Eq)]
pub struct RightMkpdu {
    /// The packet, counted from 1.
    pub packet: u32,
    /// The group, counted from 1.
    pub group: u32,
    /// The member identifier (MI).
    pub mi: Mi,
    /// The message number (MN).
    pub mn: u32,
    /// The check value (ICV).
    pub check: [u8; 16],
}

/// What is kept of the first MKPDU with a message number.
#[derive(Clone, Copy)]
pub struct First {
    pub packet: u32,
    pub check: [u8; 16],
}

impl First {
    /// What is kept of an MKPDU.
    pub fn of(mkpdu: &RightMkpdu) -> First
        ensures { result ≡ note_of mkpdu.now }
    {
        First {
            packet: mkpdu.packet,
            check: mkpdu.check,
        }
    }

    /// Whether an MKPDU has its check value.
    pub fn has_check_of(&self, mkpdu: &RightMkpdu) -> bool
        ensures { result ≡ same_check self.now.check mkpdu.now.check }
    {
        self.check == mkpdu.check
    }
}
