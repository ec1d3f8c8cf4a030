//! How reading a capture ends.

use capture_packets::CaptureFault;

/// How reading the packets of a capture ended, whose head was read.
#[derive(Clone, Copy, Debug, PartialEq, Eq)]
pub enum Ending {
    /// At its end.
    Whole,
    /// The source failed.
    Fault,
    /// An octet past the limit was taken.
    InputLimit,
    /// The next packet would make one key too many.
    KeyLimit,
    /// The record or block that begins at this octet of the capture is refused.
    Octet { at: u32, why: CaptureFault },
}
