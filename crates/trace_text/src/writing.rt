//! A line is written.

ghost use Rattle.std.specs.Prelude.{◌≡◌, ◌++◌, ◌∷◌, [], OnOk, OnErr, decimal};
ghost use Rattle.hex.specs.Hex.{encode_lower};
ghost use Rattle.trace_text.specs.declared.line.Line.TheVariants.{DrawsList};
ghost use Rattle.trace_text.specs.Writing.{written, first_words, fields};
ghost use Rattle.trace_text.specs.Appending.{Grew, word_text};
ghost use Rattle.trace_text.specs.Words.{spaced};
ghost use Rattle.trace_text.specs.inside.Fields.{further};

use crate::appending::{Word, put_words};
use crate::line::Line;
use lan_base::{Mac, Name, Octets, Sci};
use std::alloc::AllocError;

/// Appends a line's text, without a line ending. An `Err` leaves what was there.
pub fn write_line(line: &Line, into: &mut Vec<u8>) -> Result<(), AllocError>
    ensures ok { OnOk result (into.new.items ≡ into.old.items ++ written line.now) }
    ensures err { OnErr result (into.new.items ≡ into.old.items) }
{
    let start = into.len();
    let result = put_line(line, into);
    if result.is_err() {
        into.truncate(start);
    }
    result
}

/// Appends a line's text. An `Err` leaves what was there, and may leave a front of the text behind
/// it.
#[tactic(auto, unfolding(crate::specs::Writing::written))]
fn put_line(line: &Line, into: &mut Vec<u8>) -> Result<(), AllocError>
    ensures ok { OnOk result (into.new.items ≡ into.old.items ++ written line.now) }
    ensures err { OnErr result (Grew into.old.items into.new.items) }
{
    into.extend_from_slice(first_words(line))?;
    put_fields(line, into)
}

/// The words that a line begins with.
fn first_words(line: &Line) -> &'static [u8]
    ensures { result.now ≡ first_words line.now }
{
    match line {
        Line::DrawsCount => b"draws count",
        Line::DrawsChaCha { .. } => b"draws chacha",
        Line::DrawsList { .. } => b"draws list",
        Line::Conf { .. } => b"conf",
        Line::Window { .. } => b"window",
        Line::Rekey { .. } => b"rekey",
        Line::Lag { .. } => b"lag",
        Line::Suite { .. } => b"suite",
        Line::Flag { .. } => b"flag",
        Line::Group { .. } => b"group",
        Line::Station { .. } => b"station",
        Line::Tick { .. } | Line::TickOne { .. } => b"tick",
        Line::Flow { .. } => b"flow",
        Line::Deliver { .. } => b"deliver",
        Line::Spread { .. } => b"spread",
        Line::Lose { .. } => b"lose",
        Line::Cut { .. } => b"cut",
        Line::Mend { .. } => b"mend",
        Line::Restart { .. } => b"restart",
        Line::Send { .. } => b"send",
        Line::Race => b"race",
        Line::Burst { .. } => b"burst",
        Line::While => b"while",
        Line::End => b"end",
        Line::Inject { .. } => b"inject",
        Line::Feed { .. } => b"feed",
    }
}

/// Appends the further words of a line. An `Err` leaves what was there, and may leave a front of
/// the words behind it, as in the functions behind this one.
fn put_fields(line: &Line, into: &mut Vec<u8>) -> Result<(), AllocError>
    ensures ok { OnOk result (into.new.items ≡ into.old.items ++ further (fields line.now)) }
    ensures err { OnErr result (Grew into.old.items into.new.items) }
{
    match line {
        Line::DrawsCount | Line::Race | Line::While | Line::End => Ok(()),
        Line::DrawsChaCha { key } => put_octets(key, into),
        Line::DrawsList { values } => put_blocks(values.as_slice(), into),
        Line::Conf { conf } => put_number(*conf, into),
        Line::Window { window } => put_number(*window, into),
        Line::Rekey { rekey } => put_number(*rekey, into),
        Line::Lag { lag } => put_number(*lag, into),
        Line::Suite { suite } => put_number(suite.key_bits(), into),
        Line::Flag { early } => put_number(u32::from(*early), into),
        Line::Group { cak, ckn } => put_group(cak, ckn, into),
        Line::Station {
            name,
            sci,
            priority,
        } => put_station(name, *sci, *priority, into),
        Line::Tick { rounds } | Line::Flow { rounds } => put_number(*rounds, into),
        Line::TickOne { name, ticks } => put_ticks(name, *ticks, into),
        Line::Deliver { frame, name } => put_delivery(*frame, name, into),
        Line::Spread { frame } | Line::Lose { frame } => put_number(*frame, into),
        Line::Cut { from, to } | Line::Mend { from, to } => put_link(from, to, into),
        Line::Restart { name } => put_words(into, &[Word::Name(name)]),
        Line::Feed { first, last, name } => put_feed(*first, *last, name, into),
        Line::Send {
            name,
            destination,
            body,
        } => put_send(name, *destination, body, into),
        Line::Burst {
            name,
            workers,
            frames,
            destination,
            body,
        } => put_burst(name, *workers, *frames, *destination, body, into),
        Line::Inject { name, octets } => put_injected(name, octets, into),
    }
}

/// Appends a number behind a space.
fn put_number(number: u32, into: &mut Vec<u8>) -> Result<(), AllocError>
    ensures ok { OnOk result (into.new.items ≡ into.old.items ++ spaced (decimal number ∷ [])) }
    ensures err { OnErr result (Grew into.old.items into.new.items) }
{
    put_words(into, &[Word::Number(u64::from(number))])
}

/// Appends octets behind a space.
fn put_octets(octets: &[u8], into: &mut Vec<u8>) -> Result<(), AllocError>
    ensures ok { OnOk result (into.new.items
        ≡ into.old.items ++ spaced (encode_lower octets.now ∷ [])) }
    ensures err { OnErr result (Grew into.old.items into.new.items) }
{
    put_words(into, &[Word::Octets(octets)])
}

/// Appends a key and its name.
fn put_group(cak: &Octets, ckn: &Octets, into: &mut Vec<u8>) -> Result<(), AllocError>
    ensures ok { OnOk result (into.new.items
        ≡ into.old.items ++ spaced (encode_lower cak.now ∷ encode_lower ckn.now ∷ [])) }
    ensures err { OnErr result (Grew into.old.items into.new.items) }
{
    put_words(into, &[octets(cak), octets(ckn)])
}

/// Appends a station's name, its SCI and its priority.
fn put_station(name: &Name, sci: Sci, priority: u32, into: &mut Vec<u8>) -> Result<(), AllocError>
    ensures ok { OnOk result (into.new.items
        ≡ into.old.items ++ spaced (name.now ∷ encode_lower sci.0 ∷ decimal priority ∷ [])) }
    ensures err { OnErr result (Grew into.old.items into.new.items) }
{
    let sci = Word::Octets(&sci.0);
    put_words(into, &[Word::Name(name), sci, number(priority)])
}

/// Appends a station's name, and how often it ticks.
fn put_ticks(name: &Name, ticks: u32, into: &mut Vec<u8>) -> Result<(), AllocError>
    ensures ok { OnOk result (into.new.items
        ≡ into.old.items ++ spaced (name.now ∷ decimal ticks ∷ [])) }
    ensures err { OnErr result (Grew into.old.items into.new.items) }
{
    put_words(into, &[Word::Name(name), number(ticks)])
}

/// Appends a frame's number, and whom the frame reaches.
fn put_delivery(frame: u32, name: &Name, into: &mut Vec<u8>) -> Result<(), AllocError>
    ensures ok { OnOk result (into.new.items
        ≡ into.old.items ++ spaced (decimal frame ∷ name.now ∷ [])) }
    ensures err { OnErr result (Grew into.old.items into.new.items) }
{
    put_words(into, &[number(frame), Word::Name(name)])
}

/// Appends the names of a link's ends.
fn put_link(from: &Name, to: &Name, into: &mut Vec<u8>) -> Result<(), AllocError>
    ensures ok { OnOk result (into.new.items
        ≡ into.old.items ++ spaced (from.now ∷ to.now ∷ [])) }
    ensures err { OnErr result (Grew into.old.items into.new.items) }
{
    put_words(into, &[Word::Name(from), Word::Name(to)])
}

/// Appends the numbers of the first frame and the last one, and whom the frames reach.
fn put_feed(first: u32, last: u32, name: &Name, into: &mut Vec<u8>) -> Result<(), AllocError>
    ensures ok { OnOk result (into.new.items
        ≡ into.old.items ++ spaced (decimal first ∷ decimal last ∷ name.now ∷ [])) }
    ensures err { OnErr result (Grew into.old.items into.new.items) }
{
    put_words(into, &[number(first), number(last), Word::Name(name)])
}

/// Appends a station's name, a destination and user data.
fn put_send(
    name: &Name,
    destination: Mac,
    body: &Octets,
    into: &mut Vec<u8>,
) -> Result<(), AllocError>
    ensures ok { OnOk result (into.new.items ≡ into.old.items
        ++ spaced (name.now ∷ encode_lower destination.0 ∷ encode_lower body.now ∷ [])) }
    ensures err { OnErr result (Grew into.old.items into.new.items) }
{
    let destination = Word::Octets(&destination.0);
    put_words(into, &[Word::Name(name), destination, octets(body)])
}

/// Appends a station's name, its counts of workers and of frames, a destination and user data.
fn put_burst(
    name: &Name,
    workers: u32,
    frames: u32,
    destination: Mac,
    body: &Octets,
    into: &mut Vec<u8>,
) -> Result<(), AllocError>
    ensures ok { OnOk result (into.new.items ≡ into.old.items
        ++ spaced (name.now ∷ decimal workers ∷ decimal frames ∷ encode_lower destination.0
        ∷ encode_lower body.now ∷ [])) }
    ensures err { OnErr result (Grew into.old.items into.new.items) }
{
    let workers = number(workers);
    let frames = number(frames);
    let destination = Word::Octets(&destination.0);
    put_words(
        into,
        &[Word::Name(name), workers, frames, destination, octets(body)],
    )
}

/// Appends a station's name, and octets that reach it.
fn put_injected(name: &Name, injected: &Octets, into: &mut Vec<u8>) -> Result<(), AllocError>
    ensures ok { OnOk result (into.new.items
        ≡ into.old.items ++ spaced (name.now ∷ encode_lower injected.now ∷ [])) }
    ensures err { OnErr result (Grew into.old.items into.new.items) }
{
    put_words(into, &[Word::Name(name), octets(injected)])
}

/// Appends the values of a list of draws, each behind a space. An `Err` leaves what was there, and
/// may leave a front of the values behind it.
fn put_blocks(values: &[[u8; 16]], into: &mut Vec<u8>) -> Result<(), AllocError>
    ensures ok { OnOk result (into.new.items
        ≡ into.old.items ++ further (fields (DrawsList values.now))) }
    ensures err { OnErr result (Grew into.old.items into.new.items) }
{
    for value in values {
        put_words(into, &[Word::Octets(value)])?;
    }
    Ok(())
}

/// A number as a word.
fn number(number: u32) -> Word<'static>
    ensures { word_text result ≡ decimal number }
{
    Word::Number(u64::from(number))
}

/// Octets as a word.
fn octets(octets: &Octets) -> Word<'_>
    ensures { word_text result ≡ encode_lower octets.now }
{
    Word::Octets(octets.as_slice())
}
