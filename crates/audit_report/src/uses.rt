//! What is told of each key and sender, with how many of its fresh frames came late and the first of
//! these, and its line.

ghost use Rattle.std.specs.Prelude.{◌≡◌, ◌++◌, [], List, IfOk, OnOk, codes, map};
ghost use Rattle.trace_text.specs.Words.{spaced};
ghost use Rattle.rollover_notes.specs.Events.{Event};
ghost use Rattle.rollover_notes.specs.Standing.{StandsFor};
ghost use Rattle.audit_report.specs.Lines.{line_of};
ghost use Rattle.audit_report.specs.Uses.{order_words, timed, timed_line, timed_lines, use_words, with_late};

use crate::lines::{number, put_line};
use rollover_notes::{LateFrames, RolloverNotes};
use std::alloc::{AllocError, Global};
use trace_text::{Word, put_words};
use use_notes::Use;

/// What is told of a key and a sender, how many of its fresh frames came late, and the packet of the
/// first of these, 0 for none.
#[derive(Clone, Copy, Debug, PartialEq, Eq)]
pub struct TimedUse {
    pub noted: Use,
    pub late: u32,
    pub first_late: u32,
}

/// What is told of each key and sender, with how many of its fresh frames came late.
pub fn timed_uses(
    alloc: Global,
    uses: &[Use],
    notes: &RolloverNotes,
) -> Result<Vec<TimedUse>, AllocError>
    ensures { (h : List Event) → StandsFor h notes.now
        → IfOk result (λ timed_uses. timed_uses.items ≡ map (timed h) uses.now) }
{
    let mut told = Vec::new(alloc);
    for each in uses {
        told.push(with_late(each, notes.late(each.key, each.sci)))?;
    }
    Ok(told)
}

/// What is told of a key and a sender, with these of its fresh frames that came late.
fn with_late(noted: &Use, late: LateFrames) -> TimedUse
    ensures { result ≡ with_late noted.now late }
{
    TimedUse {
        noted: *noted,
        late: late.frames,
        first_late: late.first,
    }
}

/// Appends what is told of each key and sender. An `Err` may leave a front of it.
pub fn put_timed(uses: &[TimedUse], into: &mut Vec<u8>) -> Result<(), AllocError>
    ensures { OnOk result (into.new.items ≡ into.old.items ++ timed_lines uses.now) }
{
    for each in uses {
        put_use(each, into)?;
    }
    Ok(())
}

/// Appends the line of a key and a sender.
fn put_use(each: &TimedUse, into: &mut Vec<u8>) -> Result<(), AllocError>
    ensures { OnOk result (into.new.items ≡ into.old.items ++ timed_line each.now) }
{
    begin_use(&each.noted, into)?;
    end_use(each, into)
}

/// Appends the front of the line of a key and a sender.
fn begin_use(each: &Use, into: &mut Vec<u8>) -> Result<(), AllocError>
    ensures { OnOk result (into.new.items
        ≡ into.old.items ++ (codes "use" ++ spaced (use_words each.now))) }
{
    let counts = &each.counts;
    into.extend_from_slice(b"use")?;
    put_words(
        into,
        &[
            number(each.key),
            Word::Octets(&each.sci.0),
            Word::Text(b"frames"),
            number(counts.frames),
            Word::Text(b"pn"),
            number(counts.low),
            number(counts.high),
            Word::Text(b"packets"),
            number(counts.first),
            number(counts.last),
        ],
    )
}

/// Appends the rest of the line of a key and a sender.
fn end_use(each: &TimedUse, into: &mut Vec<u8>) -> Result<(), AllocError>
    ensures { OnOk result (into.new.items
        ≡ into.old.items ++ line_of [] (order_words each.now)) }
{
    let counts = &each.noted.counts;
    put_line(
        into,
        b"",
        &[
            Word::Text(b"repeated"),
            number(counts.repeated),
            Word::Number(counts.longest),
            Word::Text(b"reused"),
            number(counts.reused),
            Word::Text(b"fell"),
            number(counts.fell),
            Word::Text(b"window"),
            Word::Number(counts.window),
            Word::Text(b"clear"),
            number(counts.clear),
            Word::Text(b"late"),
            number(each.late),
            number(each.first_late),
        ],
    )
}
