//! What is told at the end.

ghost use Rattle.std.specs.Prelude.{◌≡◌, ◌++◌, OnOk, map};
ghost use Rattle.audit_report.specs.Lines.{counts_line};
ghost use Rattle.audit_report.specs.Report.{begun_lines, count_lines, fault_text, malformed_line, mka_line, packets_line, read_line, sec_line, undecided_line};
ghost use Rattle.audit_report.specs.Verdicts.{last_lines};

use crate::ending::Ending;
use crate::lines::{number, put_line};
use crate::tally::{Malformations, MkaCounts, SecCounts, Tally, UndecidedCounts};
use crate::unknown::{UnknownName, put_unknown};
use crate::verdict::Verdict;
use capture_packets::CaptureFault;
use std::alloc::{AllocError, Global};
use trace_text::{Word, put_words};

/// Appends what is told at the end before the lines of members. An `Err` may leave a front of it.
pub fn begin_end(
    tally: &Tally,
    verdict: &Verdict,
    ending: Ending,
    into: &mut Vec<u8>,
) -> Result<(), AllocError>
    ensures { OnOk result (into.new.items
        ≡ into.old.items ++ begun_lines tally.now verdict.now ending) }
{
    put_counts(tally, verdict.unknown(), ending, into)?;
    verdict.begin(into)
}

/// Appends what is told at the end behind the lines of members. An `Err` may leave a front of it.
pub fn finish_end(
    alloc: Global,
    tally: &Tally,
    verdict: &Verdict,
    into: &mut Vec<u8>,
) -> Result<(), AllocError>
    ensures { OnOk result (into.new.items ≡ into.old.items ++ last_lines tally.now verdict.now) }
{
    verdict.put_judged(tally, into)?;
    verdict.put_sums(alloc, into)
}

/// Appends how many packets there are of each kind, and the names that no group has.
fn put_counts(
    tally: &Tally,
    unknown: &[UnknownName],
    ending: Ending,
    into: &mut Vec<u8>,
) -> Result<(), AllocError>
    ensures { OnOk result (into.new.items ≡ into.old.items ++ count_lines tally.now unknown.now ending) }
{
    put_read(tally.all, ending, into)?;
    put_packets(tally, into)?;
    put_mka(&tally.mka, into)?;
    put_unknown(unknown, into)?;
    put_sec(&tally.sec, into)?;
    put_undecided(&tally.sec.reasons, into)?;
    put_malformed(&tally.sec.malformations, into)
}

/// Appends how many packets were read, and how reading ended.
fn put_read(count: u32, ending: Ending, into: &mut Vec<u8>) -> Result<(), AllocError>
    ensures { OnOk result (into.new.items ≡ into.old.items ++ read_line count ending) }
{
    let count = number(count);
    let limit = Word::Text(b"limit");
    match ending {
        Ending::Whole => put_line(into, b"read", &[count, Word::Text(b"whole")]),
        Ending::Fault => put_line(into, b"read", &[count, Word::Text(b"fault")]),
        Ending::InputLimit => {
            put_line(into, b"read", &[count, limit, Word::Text(b"CaptureInput")])
        }
        Ending::KeyLimit => put_line(into, b"read", &[count, limit, Word::Text(b"Keys")]),
        Ending::Octet { at, why } => {
            let why = Word::Text(fault_text(why));
            put_line(
                into,
                b"read",
                &[count, Word::Text(b"octet"), number(at), why],
            )
        }
    }
}

/// The word of a refusal.
fn fault_text(why: CaptureFault) -> &'static [u8]
    ensures { result.now ≡ fault_text why }
{
    match why {
        CaptureFault::Magic => b"Magic",
        CaptureFault::LinkType => b"LinkType",
        CaptureFault::Cut => b"Cut",
        CaptureFault::Length => b"Length",
        CaptureFault::Block => b"Block",
        CaptureFault::Interface => b"Interface",
    }
}

/// Appends how many packets are of which protocol, and how many have no time of their own.
fn put_packets(tally: &Tally, into: &mut Vec<u8>) -> Result<(), AllocError>
    ensures { OnOk result (into.new.items ≡ into.old.items ++ packets_line tally.now) }
{
    put_numbers(
        into,
        b"packets",
        &[
            (b"mka", tally.mka.all),
            (b"sec", tally.sec.all),
            (b"other", tally.other),
            (b"foreign", tally.foreign),
            (b"untimed", tally.untimed),
        ],
    )
}

/// Appends how many frames of key agreement there are of each kind.
fn put_mka(mka: &MkaCounts, into: &mut Vec<u8>) -> Result<(), AllocError>
    ensures { OnOk result (into.new.items ≡ into.old.items ++ mka_line mka.now) }
{
    put_numbers(
        into,
        b"mka",
        &[
            (b"right", mka.right),
            (b"wrong", mka.wrong),
            (b"unknown", mka.unknown),
            (b"dropped", mka.dropped),
            (b"cut", mka.cut),
        ],
    )
}

/// Appends how many frames with the EtherType of MACsec there are of each kind.
fn put_sec(sec: &SecCounts, into: &mut Vec<u8>) -> Result<(), AllocError>
    ensures { OnOk result (into.new.items ≡ into.old.items ++ sec_line sec.now) }
{
    put_numbers(
        into,
        b"sec",
        &[
            (b"right", sec.right),
            (b"wrong", sec.wrong),
            (b"undecided", sec.undecided),
            (b"malformed", sec.malformed),
            (b"cut", sec.cut),
        ],
    )
}

/// Appends of how many frames nothing is said, by the reason.
fn put_undecided(reasons: &UndecidedCounts, into: &mut Vec<u8>) -> Result<(), AllocError>
    ensures { OnOk result (into.new.items ≡ into.old.items ++ undecided_line reasons.now) }
{
    put_numbers(
        into,
        b"undecided",
        &[
            (b"suite", reasons.suite),
            (b"offset", reasons.offset),
            (b"unseen", reasons.unseen),
            (b"ckn", reasons.ckn),
            (b"nokey", reasons.no_key),
        ],
    )
}

/// Appends how many frames can't be judged, by the reason.
fn put_malformed(malformations: &Malformations, into: &mut Vec<u8>) -> Result<(), AllocError>
    ensures { OnOk result (into.new.items ≡ into.old.items ++ malformed_line malformations.now) }
{
    put_numbers(
        into,
        b"malformed",
        &[
            (b"version", malformations.version),
            (b"mode", malformations.mode),
            (b"short", malformations.short),
            (b"slwrong", malformations.sl_wrong),
            (b"long", malformations.long),
        ],
    )
}

/// Appends a line of names, each with its number.
fn put_numbers(into: &mut Vec<u8>, first: &[u8], numbers: &[(&[u8], u32)]) -> Result<(), AllocError>
    ensures { OnOk result (into.new.items ≡ into.old.items
        ++ counts_line first.now (map (λ it. (it.0.now, it.1)) numbers.now)) }
{
    into.extend_from_slice(first)?;
    for (name, count) in numbers {
        put_words(into, &[Word::Text(name), number(*count)])?;
    }
    into.push(b'\n')?;
    Ok(())
}
