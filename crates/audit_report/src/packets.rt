//! The lines of packets.

ghost use Rattle.std.specs.Prelude.{◌≡◌, ◌++◌, [], List, ℕ, map, OnOk};
ghost use Rattle.trace_text.specs.Appending.{word_text};
ghost use Rattle.trace_text.specs.Words.{spaced};
ghost use Rattle.capture_file.specs.Describing.{packet_words};
ghost use Rattle.audit_report.specs.Packets.{begun_line, begun_part, begun_words, finding_lines, judged_words, mkpdu_words, novelty_words, reason_text};

use crate::events::put_events;
use crate::finding::Finding;
use crate::lines::number;
use capture_file::{describe, put_malformed, put_tag};
use known_keys::Reason;
use member_notes::MkpduNovelty;
use packet_verdicts::{Kind, Malformed, Mka, Sec};
use std::alloc::AllocError;
use trace_text::{Word, put_words};
use use_notes::Novelty;

/// Appends what the line of a packet begins with: its number, and what its frame says of itself, or
/// why that is not told. An `Err` may leave a front of it.
pub fn begin_line(
    packet: u32,
    frame: &[u8],
    kind: &Kind,
    into: &mut Vec<u8>,
) -> Result<(), AllocError>
    ensures { OnOk result (into.new.items
        ≡ into.old.items ++ begun_line packet (begun_words frame.now kind.now)) }
{
    match kind {
        Kind::Foreign => begin_with(packet, &[Word::Text(b"foreign")], into),
        Kind::Sec(Sec::Cut) => {
            begin_with(packet, &[Word::Text(b"sec"), Word::Text(b"cut")], into)
        }
        Kind::Mka(Mka::Cut) => {
            begin_with(packet, &[Word::Text(b"mka"), Word::Text(b"cut")], into)
        }
        Kind::Sec(Sec::Malformed(Malformed::Long)) => {
            let sec = Word::Text(b"sec");
            let malformed = Word::Text(b"malformed");
            begin_with(packet, &[sec, malformed, Word::Text(b"long")], into)
        }
        Kind::Sec(Sec::Malformed(Malformed::Refused(why))) => {
            begin_number(packet, into)?;
            put_malformed(*why, into)
        }
        Kind::Sec(Sec::Protected { tag, .. }) => {
            begin_number(packet, into)?;
            put_tag(tag, into)
        }
        _ => begin_described(packet, frame, into),
    }
}

/// Appends the number of a packet.
fn begin_number(packet: u32, into: &mut Vec<u8>) -> Result<(), AllocError>
    ensures { OnOk result (into.new.items ≡ into.old.items ++ begun_line packet []) }
{
    into.extend_from_slice(b"packet")?;
    put_words(into, &[number(packet)])
}

/// Appends the number of a packet and words.
fn begin_with(packet: u32, words: &[Word], into: &mut Vec<u8>) -> Result<(), AllocError>
    ensures { OnOk result (into.new.items
        ≡ into.old.items ++ begun_line packet (map word_text words.now)) }
{
    begin_number(packet, into)?;
    put_words(into, words)
}

/// Appends the number of a packet and what its frame says of itself.
fn begin_described(packet: u32, frame: &[u8], into: &mut Vec<u8>) -> Result<(), AllocError>
    ensures { OnOk result (into.new.items
        ≡ into.old.items ++ begun_line packet (packet_words frame.now)) }
{
    describe(packet, frame, into)?;
    // Its line feed comes behind the words that follow.
    into.pop();
    Ok(())
}

/// Appends the lines of a packet: where lines of packets are shown, the one that was begun for it, and
/// those that are told whatever is shown, with `keys` keys themselves too. An `Err` may leave a front of them.
pub fn put_finding(
    shows: bool,
    begun: &[u8],
    packet: u32,
    finding: &Finding,
    keys: bool,
    into: &mut Vec<u8>,
) -> Result<(), AllocError>
    ensures { (words : List (List ℕ)) → begun.now ≡ begun_part shows packet words
        → OnOk result (into.new.items
        ≡ into.old.items ++ finding_lines shows keys packet words finding.now) }
{
    if shows {
        into.extend_from_slice(begun)?;
        put_judged(finding, into)?;
        into.push(b'\n')?;
    }
    put_events(packet, finding, keys, into)
}

/// Appends what is told of a frame behind what it says of itself.
fn put_judged(finding: &Finding, into: &mut Vec<u8>) -> Result<(), AllocError>
    ensures { OnOk result (into.new.items
        ≡ into.old.items ++ spaced (judged_words finding.now)) }
{
    match finding {
        Finding::RightFrame { frame, novelty } => {
            put_words(into, &[Word::Text(b"key"), number(frame.key)])?;
            put_novelty(*novelty, into)
        }
        Finding::Undecided(why) => {
            let why = Word::Text(reason_text(*why));
            put_words(into, &[Word::Text(b"undecided"), why])
        }
        Finding::WrongFrame | Finding::WrongMkpdu { .. } => {
            put_words(into, &[Word::Text(b"wrong")])
        }
        Finding::Unknown { .. } => put_words(into, &[Word::Text(b"unknown")]),
        Finding::RightMkpdu { mkpdu, novelty, .. } => {
            put_words(into, &[Word::Text(b"group"), number(mkpdu.group)])?;
            put_mkpdu_novelty(*novelty, into)
        }
        _ => Ok(()),
    }
}

/// Appends what a right frame is behind the ones before it.
fn put_novelty(novelty: Novelty, into: &mut Vec<u8>) -> Result<(), AllocError>
    ensures { OnOk result (into.new.items ≡ into.old.items ++ spaced (novelty_words novelty)) }
{
    match novelty {
        Novelty::New => put_words(into, &[Word::Text(b"new")]),
        Novelty::Repeated { first } => put_words(into, &[Word::Text(b"repeated"), number(first)]),
        Novelty::Reused { first } => put_words(into, &[Word::Text(b"reused"), number(first)]),
    }
}

/// Appends what a right MKPDU is behind the ones before it.
fn put_mkpdu_novelty(novelty: MkpduNovelty, into: &mut Vec<u8>) -> Result<(), AllocError>
    ensures { OnOk result (into.new.items ≡ into.old.items ++ spaced (mkpdu_words novelty)) }
{
    match novelty {
        MkpduNovelty::New => put_words(into, &[Word::Text(b"new")]),
        MkpduNovelty::Fell => put_words(into, &[Word::Text(b"fell")]),
        MkpduNovelty::Again { first } => put_words(into, &[Word::Text(b"again"), number(first)]),
    }
}

/// The word of a reason.
fn reason_text(why: Reason) -> &'static [u8]
    ensures { result.now ≡ reason_text why }
{
    match why {
        Reason::Suite => b"suite",
        Reason::Offset => b"offset",
        Reason::Unseen => b"unseen",
        Reason::Ckn => b"ckn",
        Reason::NoKey => b"nokey",
    }
}
