//! A fact is rendered.

ghost use Rattle.std.specs.Prelude.{◌≡◌, ℕ, List, [], ◌∷◌, ◌++◌, get_or, map, codes, decimal, OnOk, OnErr};
ghost use Rattle.hex.specs.Hex.{encode_lower};
ghost use Rattle.aes_block.specs.Secrets.{secret_octets};
ghost use Rattle.lan_base.specs.AssociationNumbers.{number_of};
ghost use Rattle.transcript.specs.Words.{spelled, server_word, why_words, verdict_words, arrival_words, lack_words, cause_text, frame_text};
ghost use Rattle.transcript.specs.Rendering.{rendered};
ghost use Rattle.trace_text.specs.Appending.{Grew, word_text};
ghost use Rattle.transcript.specs.inside.Appending.{line_of, told};

use crate::laying::{ROOM, lay_ticked};
use crate::tables::{Told, cause_text, frame_text, lack_told, reason_told, verdict_word, why_told};
use aes_block::Secret;
use lan_base::{AssociationNumber, KeyId, Mi, Name, Octets};
use lan_core::{Fact, Lack};
use mka_station::Verdict;
use rx_slots::Arrival;
use sak_exchange::{Cause, Why};
use std::alloc::AllocError;
use trace_text::{Word, put_words};

/// Appends a fact's line with its line feed, under the names of the stations by place; a station that
/// has none is named by an empty word. An `Err` leaves what was there.
pub fn render(fact: &Fact, into: &mut Vec<u8>, names: &[Name]) -> Result<(), AllocError>
    ensures ok { OnOk result (into.new.items ≡ into.old.items ++ rendered names.now fact.now) }
    ensures err { OnErr result (into.new.items ≡ into.old.items) }
{
    let start = into.len();
    let result = put_fact(fact, into, names);
    if result.is_err() {
        into.truncate(start);
    }
    result
}

/// Appends a fact's line. An `Err` leaves what was there, and may leave a front of the line behind
/// it.
#[tactic(auto, unfolding(crate::specs::Rendering::line))]
fn put_fact<'a>(fact: &'a Fact, into: &mut Vec<u8>, names: &'a [Name]) -> Result<(), AllocError>
    ensures ok { OnOk result (into.new.items ≡ into.old.items ++ rendered names.now fact.now) }
    ensures err { OnErr result (Grew into.old.items into.new.items) }
{
    let name = name_at(names, fact.place());
    match fact {
        Fact::Life { mi, .. } => put_life(into, name, mi),
        Fact::Ticked { at, next, .. } => put_ticked(into, name, *at, *next),
        Fact::Server { mi, .. } => put_server(into, name, mi),
        Fact::Dropped { id, an, .. } => put(into, b"drop", &held_words(name, id, *an), &[]),
        Fact::Retired { id, an, .. } => put(into, b"retire", &held_words(name, id, *an), &[]),
        Fact::Began {
            id,
            an,
            epoch,
            cause,
            ..
        } => put_began(into, &held_words(name, id, *an), *epoch, *cause),
        Fact::Installed {
            id,
            an,
            epoch,
            sak,
            ..
        } => put_installed(into, &held_words(name, id, *an), *epoch, sak),
        Fact::Untaken { id, why, .. } => put_untaken(into, name, id, *why),
        Fact::Framed {
            number,
            sec,
            octets,
            ..
        } => put_framed(into, *number, name, *sec, octets),
        Fact::HeardMka { frame, verdict, .. } => put_heard(into, *frame, name, *verdict),
        Fact::Claimed { an, epoch, pn, .. } => put_claimed(into, name, *an, *epoch, *pn),
        Fact::Unclaimed { why, .. } => put_unclaimed(into, name, *why),
        Fact::Arrived { frame, arrival, .. } => put_arrived(into, *frame, name, arrival),
    }
}

/// Appends the line of a life of the station that is named.
fn put_life(into: &mut Vec<u8>, name: &[u8], mi: &Mi) -> Result<(), AllocError>
    ensures ok { OnOk result (into.new.items ≡ into.old.items ++ line_of (codes "life")
        (name.now ∷ encode_lower mi.now.0 ∷ [])) }
    ensures err { OnErr result (Grew into.old.items into.new.items) }
{
    put(into, b"life", &[Word::Text(name), Word::Octets(&mi.0)], &[])
}

/// Appends the line of the server that the station elected, or of none.
fn put_server(into: &mut Vec<u8>, name: &[u8], mi: &Option<Mi>) -> Result<(), AllocError>
    ensures ok { OnOk result ((names : List (List ℕ)) → into.new.items ≡ into.old.items
        ++ line_of (codes "server") (name.now ∷ spelled names (server_word mi.now) ∷ [])) }
    ensures err { OnErr result (Grew into.old.items into.new.items) }
{
    put(into, b"server", &[Word::Text(name), server_word(mi)], &[])
}

/// Appends the line of a tick of the station that is named. There is one for each tick: it is laid out
/// first, and appended by one call.
fn put_ticked(into: &mut Vec<u8>, name: &[u8], at: u32, next: u64) -> Result<(), AllocError>
    ensures ok { OnOk result (into.new.items ≡ into.old.items ++ line_of (codes "tick")
        (name.now ∷ decimal at ∷ codes "next" ∷ decimal next ∷ [])) }
    ensures err { OnErr result (Grew into.old.items into.new.items) }
{
    let mut line = [0; ROOM];
    if let Some(end) = lay_ticked(&mut line, name, at, next) {
        return into.extend_from_slice(&line[..end]);
    }
    put(
        into,
        b"tick",
        &[Word::Text(name), number(at)],
        &[Word::Text(b"next"), Word::Number(next)],
    )
}

/// Appends the line of a key that begins to transmit, of which these are the first words.
fn put_began<'a>(
    into: &mut Vec<u8>,
    key: &[Word<'a>],
    epoch: u32,
    cause: Cause,
) -> Result<(), AllocError>
    ensures ok { OnOk result (into.new.items ≡ into.old.items ++ line_of (codes "begin")
        (map word_text key.now ++ codes "epoch" ∷ decimal epoch ∷ cause_text cause ∷ [])) }
    ensures err { OnErr result (Grew into.old.items into.new.items) }
{
    let cause = Word::Text(cause_text(cause));
    put(
        into,
        b"begin",
        key,
        &[Word::Text(b"epoch"), number(epoch), cause],
    )
}

/// Appends the line of a key that is the latest one from now on, of which these are the first words.
fn put_installed<'a>(
    into: &mut Vec<u8>,
    key: &[Word<'a>],
    epoch: u32,
    sak: &'a Secret,
) -> Result<(), AllocError>
    ensures ok { OnOk result (into.new.items ≡ into.old.items ++ line_of (codes "install")
        (map word_text key.now ++ codes "epoch" ∷ decimal epoch ∷ codes "sak"
        ∷ encode_lower (secret_octets sak.now) ∷ [])) }
    ensures err { OnErr result (Grew into.old.items into.new.items) }
{
    let sak = Word::Octets(sak.octets());
    let tail = [Word::Text(b"epoch"), number(epoch), Word::Text(b"sak"), sak];
    put(into, b"install", key, &tail)
}

/// Appends the line of a frame that is put on the air.
fn put_framed<'a>(
    into: &mut Vec<u8>,
    frame: u32,
    name: &'a [u8],
    sec: bool,
    octets: &'a Octets,
) -> Result<(), AllocError>
    ensures ok { OnOk result (into.new.items ≡ into.old.items ++ line_of (codes "frame")
        (decimal frame ∷ name.now ∷ frame_text sec ∷ encode_lower octets.now ∷ [])) }
    ensures err { OnErr result (Grew into.old.items into.new.items) }
{
    let kind = Word::Text(frame_text(sec));
    let octets = Word::Octets(octets.as_slice());
    put(
        into,
        b"frame",
        &[number(frame), Word::Text(name)],
        &[kind, octets],
    )
}

/// Appends the line of a packet number that the station claimed.
fn put_claimed(
    into: &mut Vec<u8>,
    name: &[u8],
    an: AssociationNumber,
    epoch: u32,
    pn: u32,
) -> Result<(), AllocError>
    ensures ok { OnOk result (into.new.items ≡ into.old.items ++ line_of (codes "claim")
        (name.now ∷ codes "an" ∷ decimal (number_of an) ∷ codes "epoch" ∷ decimal epoch ∷ codes "pn"
        ∷ decimal pn ∷ [])) }
    ensures err { OnErr result (Grew into.old.items into.new.items) }
{
    let epoch = number(epoch);
    let head = [
        Word::Text(name),
        Word::Text(b"an"),
        an_word(an),
        Word::Text(b"epoch"),
        epoch,
    ];
    put(into, b"claim", &head, &[Word::Text(b"pn"), number(pn)])
}

/// Appends the line of a key that is not taken.
fn put_untaken<'a>(
    into: &mut Vec<u8>,
    name: &'a [u8],
    id: &'a KeyId,
    why: Why,
) -> Result<(), AllocError>
    ensures ok { OnOk result ((names : List (List ℕ)) → into.new.items ≡ into.old.items
        ++ line_of (codes "untaken") (name.now ∷ encode_lower id.now.server.0
        ∷ decimal id.now.number ∷ map (spelled names) (why_words why))) }
    ensures err { OnErr result (Grew into.old.items into.new.items) }
{
    let told = why_told(why);
    let server = Word::Octets(&id.server.0);
    let head = [Word::Text(name), server, number(id.number)];
    put_told(into, b"untaken", &head, told)
}

/// Appends the line of a frame that was heard.
fn put_heard(
    into: &mut Vec<u8>,
    frame: u32,
    name: &[u8],
    verdict: Verdict,
) -> Result<(), AllocError>
    ensures ok { OnOk result ((names : List (List ℕ)) → into.new.items ≡ into.old.items
        ++ line_of (codes "heard") (decimal frame ∷ name.now
        ∷ map (spelled names) (verdict_words verdict))) }
    ensures err { OnErr result (Grew into.old.items into.new.items) }
{
    let head = [
        number(frame),
        Word::Text(name),
        Word::Text(verdict_word(verdict)),
    ];
    match verdict {
        Verdict::Vouched | Verdict::Unvouched => put(into, b"heard", &head, &[]),
        Verdict::Dropped(reason) => put_told(into, b"heard", &head, reason_told(reason)),
    }
}

/// Appends the line of a packet number that is wanting.
fn put_unclaimed(into: &mut Vec<u8>, name: &[u8], why: Lack) -> Result<(), AllocError>
    ensures ok { OnOk result ((names : List (List ℕ)) → into.new.items ≡ into.old.items
        ++ line_of (codes "noclaim") (name.now ∷ map (spelled names) (lack_words why))) }
    ensures err { OnErr result (Grew into.old.items into.new.items) }
{
    put_told(into, b"noclaim", &[Word::Text(name)], lack_told(why))
}

/// Appends the line of a protected frame that arrived.
fn put_arrived<'a>(
    into: &mut Vec<u8>,
    frame: u32,
    name: &'a [u8],
    arrival: &'a Arrival,
) -> Result<(), AllocError>
    ensures ok { OnOk result ((names : List (List ℕ)) → into.new.items ≡ into.old.items
        ++ line_of (codes "data") (decimal frame ∷ name.now
        ∷ map (spelled names) (arrival_words arrival.now))) }
    ensures err { OnErr result (Grew into.old.items into.new.items) }
{
    let head = [number(frame), Word::Text(name)];
    match arrival {
        Arrival::Accepted { pn, body } => {
            let body = Word::Octets(body.as_slice());
            put(
                into,
                b"data",
                &head,
                &[Word::Text(b"accepted"), number(*pn), body],
            )
        }
        Arrival::Malformed(refusal) => {
            let why = Word::Text(refusal.text());
            put(into, b"data", &head, &[Word::Text(b"malformed"), why])
        }
        Arrival::Own => put(into, b"data", &head, &[Word::Text(b"own")]),
        Arrival::Missed { an } => {
            put(into, b"data", &head, &[Word::Text(b"missed"), an_word(*an)])
        }
        Arrival::BadCheck => put(into, b"data", &head, &[Word::Text(b"badcheck")]),
        Arrival::Late { next } => {
            put(
                into,
                b"data",
                &head,
                &[Word::Text(b"late"), Word::Number(*next)],
            )
        }
    }
}

/// Appends a line whose last words are those that tell something.
fn put_told(into: &mut Vec<u8>, first: &[u8], head: &[Word], last: Told) -> Result<(), AllocError>
    ensures ok { OnOk result (into.new.items ≡ into.old.items
        ++ line_of first.now (map word_text head.now ++ told last.entry)) }
    ensures err { OnErr result (Grew into.old.items into.new.items) }
{
    let word = Word::Text(last.word);
    match last.number {
        None => put(into, first, head, &[word]),
        Some(number) => put(into, first, head, &[word, Word::Number(number)]),
    }
}

/// The words of a key of the station that is named.
fn held_words<'a>(name: &'a [u8], id: &'a KeyId, an: AssociationNumber) -> [Word<'a>; 5]
    ensures { map word_text result ≡ name.now ∷ encode_lower id.now.server.0
        ∷ decimal id.now.number ∷ codes "an" ∷ decimal (number_of an) ∷ [] }
{
    let server = Word::Octets(&id.server.0);
    let number = number(id.number);
    [
        Word::Text(name),
        server,
        number,
        Word::Text(b"an"),
        an_word(an),
    ]
}

/// The word of a number of 32 bits.
fn number<'a>(number: u32) -> Word<'a>
    ensures { word_text result ≡ decimal number }
{
    Word::Number(u64::from(number))
}

/// The word of an association number.
fn an_word<'a>(an: AssociationNumber) -> Word<'a>
    ensures { word_text result ≡ decimal (number_of an) }
{
    Word::Number(u64::from(an.number()))
}

/// The word that tells an elected server, or that there is none.
fn server_word(mi: &Option<Mi>) -> Word<'_>
    ensures { (names : List (List ℕ)) → word_text result ≡ spelled names (server_word mi.now) }
{
    match mi {
        Some(mi) => Word::Octets(&mi.0),
        None => Word::Text(b"none"),
    }
}

/// The name of the station at a place, and no octet where it has none.
fn name_at(names: &[Name], station: u8) -> &[u8]
    ensures { result.now ≡ get_or names.now station [] }
{
    match names.get(usize::from(station)) {
        Some(name) => name.octets(),
        None => &[],
    }
}

/// Appends a line: its first word, and each further word behind a space.
fn put(into: &mut Vec<u8>, first: &[u8], head: &[Word], tail: &[Word]) -> Result<(), AllocError>
    ensures ok { OnOk result (into.new.items ≡ into.old.items
        ++ line_of first.now (map word_text head.now ++ map word_text tail.now)) }
    ensures err { OnErr result (Grew into.old.items into.new.items) }
{
    into.extend_from_slice(first)?;
    put_words(into, head)?;
    put_words(into, tail)?;
    into.push(b'\n')?;
    Ok(())
}
