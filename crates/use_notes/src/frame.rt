//! A frame that is right under a key.

ghost use Rattle.std.specs.Prelude.{◌≡◌};
ghost use Rattle.use_notes.specs.Frames.{note_of, same_check};

use lan_base::Sci;

/// A protected frame of a capture (IEEE Std 802.1AE) that is right under a key.
#[derive(Clone, Copy, Debug, PartialEq, Eq)]
pub struct RightFrame {
    /// The packet, counted from 1.
    pub packet: u32,
    /// The key, counted from 1.
    pub key: u32,
    /// The sender: the SCI of its tag.
    pub sci: Sci,
    /// The packet number (PN).
    pub pn: u32,
    /// The check value (ICV).
    pub check: [u8; 16],
    /// When it was captured, in nanoseconds.
    pub time: u64,
    /// Whether its user data are encrypted.
    pub confidential: bool,
}

/// What is kept of the first frame with a packet number, or with a number and a check value.
#[derive(Clone, Copy)]
pub struct First {
    pub packet: u32,
    pub check: [u8; 16],
    pub time: u64,
}

impl First {
    /// What is kept of a frame.
    pub fn of(frame: &RightFrame) -> First
        ensures { result ≡ note_of frame.now }
    {
        First {
            packet: frame.packet,
            check: frame.check,
            time: frame.time,
        }
    }

    /// Whether a frame has its check value.
    pub fn has_check_of(&self, frame: &RightFrame) -> bool
        ensures { result ≡ same_check self.now.check frame.now.check }
    {
        self.check == frame.check
    }
}
