//! How the program ends.

ghost use Rattle.std.specs.Prelude.{◌≡◌, ℕ};
ghost use Rattle.lan_core.specs.declared.stop.Which.{Which};
ghost use Rattle.trace_acts.specs.declared.halt.Kind.{Kind};
ghost use Rattle.transcript_check.specs.declared.fault.CheckFault.{CheckFault};
ghost use Rattle.transcript_capture.specs.declared.fault.LineFault.{LineFault};
ghost use Rattle.audit_report.specs.declared.blame.Breach.{Breach};
ghost use Rattle.capture_file.specs.declared.fault.CaptureFault.{CaptureFault};
ghost use Rattle.capture_packets.specs.declared.fault.CaptureFault.{CaptureFault as PacketFault};
ghost use Rattle.trace_text.specs.declared.fault.TextFault.{TextFault};
ghost use Rattle.rollover_program.specs.inside.Answering.{status_of_unwritten};
ghost use Rattle.rollover_program.specs.commands.Run.{status_of_halt, status_of_replay};

use audit_report::Breach;
use capture_file::CaptureFault;
use capture_packets::CaptureFault as PacketFault;
use lan_base::Unwritten;
use lan_core::Which;
use text_lines::End;
use thiserror::Error;
use trace_acts::{Halt, Kind};
use trace_text::TextFault;
use transcript_capture::LineFault;
use transcript_check::CheckFault;

/// How the program ended. The text of a status other than `Done` is the program's line on standard
/// error, without the program's name.
#[derive(Clone, Copy, Debug, PartialEq, Eq, Error)]
pub enum Status {
    /// The source was read to its end, and everything was written.
    #[error("done")]
    Done,
    /// The words are no command.
    #[error("usage: rollover run [--summary] | make N | try N | check | capture | dissect | roll | draw | audit [--packets] [--strict] [--keys] [--draw] [KEYS [CAPTURE]]")]
    Usage,
    /// The line of a trace with this number, from 1, is refused.
    #[error("line {line}: {kind}")]
    Trace { line: u32, kind: Kind },
    /// The source failed.
    #[error("read fault")]
    ReadFault,
    /// The sink failed.
    #[error("write fault")]
    WriteFault,
    #[error("out of memory")]
    Memory,
    /// A trace has more octets than its limit.
    #[error("limit Input")]
    Input,
    /// An event of a trace would pass a limit of the group.
    #[error("limit {0:?}")]
    Limit(Which),
    /// Two member identifiers that are drawn are equal, or two SAKs. Draws have numbers from 1.
    #[error("draws {first} and {second} repeat")]
    RepeatedDraw { first: u64, second: u64 },
    /// The line of a trace with this number injects a right frame that repeats none on the air.
    #[error("line {line}: forged")]
    Forged { line: u32 },
    /// The input of `check` or `draw` has more octets than its limit.
    #[error("limit CheckInput")]
    CheckInput,
    /// The transcript was judged, and a pair of its lines breaks what is judged.
    #[error("transcript refuted")]
    Refuted,
    /// The line of a transcript with this number, from 1, is refused.
    #[error("transcript line {line}: {why:?}")]
    Transcript { line: u32, why: CheckFault },
    /// The input of `capture`, `dissect` or `audit` has more octets than its limit.
    #[error("limit CaptureInput")]
    CaptureInput,
    /// The line of a transcript with this number, from 1, is refused, and its frame is not recorded.
    #[error("transcript line {line}: {why:?}")]
    Unrecorded { line: u32, why: LineFault },
    /// The file of captured packets is refused: its head, or the record that begins at this octet.
    #[error("capture octet {at}: {why:?}")]
    Capture { at: u32, why: CaptureFault },
    /// The line of the key text of `audit` with this number, from 1, is refused.
    #[error("line {line}: {why:?}")]
    KeyLine { line: u32, why: TextFault },
    /// There are more keys in the input of `audit` than its limit.
    #[error("limit Keys")]
    Keys,
    /// A capture was judged, and this pair of its packets, the least, breaks what is judged.
    #[error("capture refuted: {0}")]
    CaptureRefuted(Breach),
    /// A capture was judged, no pair of its packets breaks what is judged, but of its protected frames so
    /// many are wrong and so many undecided, and none was to be.
    #[error("capture doubted: {wrong} wrong, {undecided} undecided")]
    CaptureDoubted { wrong: u32, undecided: u32 },
    /// A capture was judged, no pair of its packets breaks what is judged, and none of its protected frames
    /// is wrong or undecided, but none is right either, and one was to be.
    #[error("capture doubted: nothing judged")]
    CaptureNotJudged,
    /// The capture of `audit` is refused: its head, or the record or block that begins at this octet.
    #[error("capture octet {at}: {why:?}")]
    Packets { at: u32, why: PacketFault },
}

impl Status {
    /// The number that the program ends with.
    pub fn number(self) -> u8
        ensures done { self ≡ Status.Done → result ≡ 0 }
        ensures usage { self ≡ Status.Usage → result ≡ 1 }
        ensures trace { (line : ℕ) (kind : Kind)
            → self ≡ Status.Trace line kind → result ≡ 2 }
        ensures read_fault { self ≡ Status.ReadFault → result ≡ 3 }
        ensures write_fault { self ≡ Status.WriteFault → result ≡ 4 }
        ensures memory { self ≡ Status.Memory → result ≡ 5 }
        ensures input { self ≡ Status.Input → result ≡ 6 }
        ensures limit { (which : Which) → self ≡ Status.Limit which → result ≡ 6 }
        ensures repeated_draw { (first second : ℕ)
            → self ≡ Status.RepeatedDraw first second → result ≡ 7 }
        ensures forged { (line : ℕ) → self ≡ Status.Forged line → result ≡ 8 }
        ensures check_input { self ≡ Status.CheckInput → result ≡ 6 }
        ensures refuted { self ≡ Status.Refuted → result ≡ 9 }
        ensures transcript { (line : ℕ) (why : CheckFault)
            → self ≡ Status.Transcript line why → result ≡ 10 }
        ensures capture_input { self ≡ Status.CaptureInput → result ≡ 6 }
        ensures unrecorded { (line : ℕ) (why : LineFault)
            → self ≡ Status.Unrecorded line why → result ≡ 10 }
        ensures capture { (at : ℕ) (why : CaptureFault)
            → self ≡ Status.Capture at why → result ≡ 11 }
        ensures key_line { (line : ℕ) (why : TextFault)
            → self ≡ Status.KeyLine line why → result ≡ 2 }
        ensures keys { self ≡ Status.Keys → result ≡ 6 }
        ensures capture_refuted { (breach : Breach)
            → self ≡ Status.CaptureRefuted breach → result ≡ 9 }
        ensures capture_doubted { (wrong undecided : ℕ)
            → self ≡ Status.CaptureDoubted wrong undecided → result ≡ 12 }
        ensures capture_not_judged { self ≡ Status.CaptureNotJudged → result ≡ 12 }
        ensures packets { (at : ℕ) (why : PacketFault)
            → self ≡ Status.Packets at why → result ≡ 11 }
    {
        match self {
            Status::Done => 0,
            Status::Usage => 1,
            Status::Trace { .. } => 2,
            Status::ReadFault => 3,
            Status::WriteFault => 4,
            Status::Memory => 5,
            Status::Input | Status::Limit(_) => 6,
            Status::RepeatedDraw { .. } => 7,
            Status::Forged { .. } => 8,
            Status::CheckInput => 6,
            Status::Refuted => 9,
            Status::Transcript { .. } | Status::Unrecorded { .. } => 10,
            Status::CaptureInput => 6,
            Status::Capture { .. } | Status::Packets { .. } => 11,
            Status::KeyLine { .. } => 2,
            Status::Keys => 6,
            Status::CaptureRefuted(_) => 9,
            Status::CaptureDoubted { .. } | Status::CaptureNotJudged => 12,
        }
    }
}

/// The status of a replay's answer.
pub fn status_of_replay(answer: Result<(), End<Halt>>) -> Status
    ensures { result ≡ status_of_replay answer }
{
    match answer {
        Ok(()) => Status::Done,
        Err(End::Refused(halt)) => status_of_halt(halt),
        Err(End::Memory) => Status::Memory,
        Err(End::ReadFault) => Status::ReadFault,
        Err(End::Limit) => Status::Input,
    }
}

/// The status of why performing a trace halted.
fn status_of_halt(halt: Halt) -> Status
    ensures { result ≡ status_of_halt halt }
{
    match halt {
        Halt::Trace { line, kind } => Status::Trace { line, kind },
        Halt::Memory => Status::Memory,
        Halt::WriteFault => Status::WriteFault,
        Halt::Limit(which) => Status::Limit(which),
        Halt::RepeatedDraw { first, second } => Status::RepeatedDraw { first, second },
        Halt::Forged { line } => Status::Forged { line },
    }
}

/// The status where a text was not written.
pub fn status_of_unwritten(why: Unwritten) -> Status
    ensures { result ≡ status_of_unwritten why }
{
    match why {
        Unwritten::Failed => Status::WriteFault,
        Unwritten::Memory => Status::Memory,
    }
}
