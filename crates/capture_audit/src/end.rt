//! How an audit ends.

ghost use Rattle.std.specs.Prelude.{◌≡◌};
ghost use Rattle.capture_audit.specs.declared.end.AuditEnd.TheVariants as ends;
ghost use Rattle.capture_audit.specs.inside.Auditing.{end_of_head, end_of_ring};

use audit_report::Breach;
use capture_packets::CaptureFault;
use std::alloc::{AllocError, AllocFailed};
use text_lines::End;
use thiserror::Error;
use trace_text::TextFault;

/// Why an audit does not end with a whole capture in which nothing is broken. A fault of the sink and
/// want of memory come before a broken pair, that before doubts, and these before all others.
#[derive(Clone, Copy, Debug, PartialEq, Eq, Error)]
pub enum AuditEnd {
    /// The line of the key text with this number, from 1, is refused. Nothing was written.
    #[error("line {line}: {why:?}")]
    KeyLine { line: u32, why: TextFault },
    /// A pair of packets breaks what is judged. The report was written.
    #[error("capture refuted: {0}")]
    Refuted(Breach),
    /// No pair breaks, but so many protected frames are wrong and so many undecided, and none was to be.
    /// The report was written.
    #[error("capture doubted: {wrong} wrong, {undecided} undecided")]
    Doubted { wrong: u32, undecided: u32 },
    /// No pair breaks, and no protected frame is wrong or undecided, but none is right, and one was to be.
    /// The report was written.
    #[error("capture doubted: nothing judged")]
    NotJudged,
    /// The capture is refused: its head, where nothing was written, or the record or block that begins
    /// at this octet of it, where the report was.
    #[error("capture octet {at}: {why:?}")]
    Refused { at: u32, why: CaptureFault },
    /// An octet past the limit was taken.
    #[error("the input has more octets than the limit")]
    InputLimit,
    /// There would be one key too many.
    #[error("there are too many keys")]
    KeyLimit,
    /// The source failed.
    #[error("the source failed")]
    ReadFault,
    /// The sink failed.
    #[error("the sink failed")]
    WriteFault,
    #[error("out of memory")]
    Memory,
}

impl From<AllocError> for AuditEnd {
    ghost from_gives = { λ _ end. end ≡ ends.Memory };

    fn from(_: AllocError) -> Self {
        AuditEnd::Memory
    }
}

impl<T: Drop> From<AllocFailed<T>> for AuditEnd {
    ghost from_gives = { λ _ end. end ≡ ends.Memory };

    fn from(_: AllocFailed<T>) -> Self {
        AuditEnd::Memory
    }
}

impl From<End<(u32, TextFault)>> for AuditEnd {
    ghost from_gives = { λ why end. end ≡ end_of_ring why };

    fn from(why: End<(u32, TextFault)>) -> Self {
        match why {
            End::Refused((line, why)) => AuditEnd::KeyLine { line, why },
            End::Limit => AuditEnd::InputLimit,
            End::ReadFault => AuditEnd::ReadFault,
            End::Memory => AuditEnd::Memory,
        }
    }
}

impl From<End<(u32, CaptureFault)>> for AuditEnd {
    ghost from_gives = { λ why end. end ≡ end_of_head why };

    fn from(why: End<(u32, CaptureFault)>) -> Self {
        match why {
            End::Refused((at, why)) => AuditEnd::Refused { at, why },
            End::Limit => AuditEnd::InputLimit,
            End::ReadFault => AuditEnd::ReadFault,
            End::Memory => AuditEnd::Memory,
        }
    }
}
