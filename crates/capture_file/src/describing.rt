//! A packet is told in one line.

ghost use Rattle.std.specs.Prelude.{◌≡◌, ◌++◌, ◌∷◌, [], codes, decimal, if◌then◌else◌, OnOk, OnErr};
ghost use Rattle.trace_text.specs.Appending.{Grew, word_text};
ghost use Rattle.trace_text.specs.Words.{spaced};
ghost use Rattle.capture_file.specs.Describing.{described, given_words, malformed_words, mka_words, packet_words, peer_words, refusal_words, sec_words, spelled_words, tag_words, use_words};
ghost use Rattle.gcm_frames.specs.Tags.{tag_fields};
ghost use Rattle.lan_base.specs.AssociationNumbers.{number_of};
ghost use Rattle.mkpdu_codec.specs.Reading.{reading};

use gcm_frames::{Tag, TagRefusal, is_sec, tag_of};
use lan_base::AssociationNumber;
use mkpdu_codec::{
    Announcement, Given, ReadError, Refusal, Uses, law_reading_refuses, law_spelled_is_read, read,
};
use std::alloc::AllocError;
use trace_text::{Word, put_words};

/// Appends the line of the packet of this number, with its line feed. An `Err` leaves what was
/// there.
pub fn describe(number: u32, octets: &[u8], into: &mut Vec<u8>) -> Result<(), AllocError>
    ensures ok { OnOk result (into.new.items ≡ into.old.items ++ described number octets.now) }
    ensures err { OnErr result (into.new.items ≡ into.old.items) }
{
    let start = into.len();
    let result = put_line(number, octets, into);
    if result.is_err() {
        into.truncate(start);
    }
    result
}

/// Appends the line of a packet. An `Err` leaves what was there, and may leave a front of the line
/// behind it.
fn put_line(number: u32, octets: &[u8], into: &mut Vec<u8>) -> Result<(), AllocError>
    ensures ok { OnOk result (into.new.items ≡ into.old.items ++ described number octets.now) }
    ensures err { OnErr result (Grew into.old.items into.new.items) }
{
    into.extend_from_slice(b"packet")?;
    put_words(into, &[Word::Number(u64::from(number))])?;
    put_packet(octets, into)?;
    into.push(b'\n')?;
    Ok(())
}

/// Appends what is told of a packet.
fn put_packet(octets: &[u8], into: &mut Vec<u8>) -> Result<(), AllocError>
    ensures ok { OnOk result (into.new.items
        ≡ into.old.items ++ spaced (packet_words octets.now)) }
    ensures err { OnErr result (Grew into.old.items into.new.items) }
{
    if is_sec(octets) {
        put_sec(octets, into)
    } else {
        put_spelled(octets, into)
    }
}

/// Appends what the SecTAG of a packet says, or why it is malformed.
fn put_sec(octets: &[u8], into: &mut Vec<u8>) -> Result<(), AllocError>
    ensures ok { OnOk result (into.new.items
        ≡ into.old.items ++ spaced (sec_words (tag_fields octets.now))) }
    ensures err { OnErr result (Grew into.old.items into.new.items) }
{
    match tag_of(octets) {
        Ok(tag) => put_tag(&tag, into),
        Err(refusal) => put_malformed(refusal, into),
    }
}

/// Appends what a SecTAG says, a blank before each word. An `Err` may leave a front of it.
pub fn put_tag(tag: &Tag, into: &mut Vec<u8>) -> Result<(), AllocError>
    ensures ok { OnOk result (into.new.items ≡ into.old.items ++ spaced (tag_words tag.now)) }
    ensures err { OnErr result (Grew into.old.items into.new.items) }
{
    let pn = Word::Number(u64::from(tag.pn));
    put_words(
        into,
        &[
            Word::Text(b"sec"),
            Word::Octets(&tag.sci.0),
            Word::Text(b"an"),
            an_word(tag.an),
            Word::Text(b"pn"),
            pn,
            Word::Text(b"conf"),
            flag_word(tag.conf),
        ],
    )
}

/// Appends why a protected frame is malformed, a blank before each word. An `Err` may leave a front of
/// it.
pub fn put_malformed(refusal: TagRefusal, into: &mut Vec<u8>) -> Result<(), AllocError>
    ensures ok { OnOk result (into.new.items
        ≡ into.old.items ++ spaced (malformed_words refusal)) }
    ensures err { OnErr result (Grew into.old.items into.new.items) }
{
    let why = Word::Text(refusal.text());
    put_words(into, &[Word::Text(b"sec"), Word::Text(b"malformed"), why])
}

/// Appends what a packet spells as a frame of key agreement, or why it spells nothing.
fn put_spelled(octets: &[u8], into: &mut Vec<u8>) -> Result<(), AllocError>
    ensures ok { OnOk result (into.new.items
        ≡ into.old.items ++ spaced (spelled_words (reading octets.now))) }
    ensures err { OnErr result (Grew into.old.items into.new.items) }
{
    law_spelled_is_read();
    law_reading_refuses();
    let alloc = *into.allocator();
    match read(alloc, octets) {
        Ok(spelled) => put_announcement(&spelled.announcement, into),
        Err(ReadError::Refused(refusal)) => put_refusal(refusal, into),
        Err(ReadError::Memory) => Err(AllocError),
    }
}

/// Appends what an announcement says.
fn put_announcement(announcement: &Announcement, into: &mut Vec<u8>) -> Result<(), AllocError>
    ensures ok { OnOk result (into.new.items
        ≡ into.old.items ++ spaced (mka_words announcement.now)) }
    ensures err { OnErr result (Grew into.old.items into.new.items) }
{
    put_peers(announcement, into)?;
    put_uses(announcement.uses, into)?;
    put_given(announcement.given, into)
}

/// Appends who announces, and how many peers are listed.
fn put_peers(announcement: &Announcement, into: &mut Vec<u8>) -> Result<(), AllocError>
    ensures ok { OnOk result (into.new.items
        ≡ into.old.items ++ spaced (peer_words announcement.now)) }
    ensures err { OnErr result (Grew into.old.items into.new.items) }
{
    let mn = Word::Number(u64::from(announcement.mn));
    let priority = Word::Number(u64::from(announcement.priority));
    let live = Word::Number(announcement.live.len() as u64);
    let potential = Word::Number(announcement.potential.len() as u64);
    put_words(
        into,
        &[
            Word::Text(b"mka"),
            Word::Octets(&announcement.mi.0),
            Word::Text(b"mn"),
            mn,
            Word::Text(b"sci"),
            Word::Octets(&announcement.sci.0),
            Word::Text(b"priority"),
            priority,
            Word::Text(b"live"),
            live,
            Word::Text(b"potential"),
            potential,
        ],
    )
}

/// Appends which keys are in use.
fn put_uses(uses: Option<Uses>, into: &mut Vec<u8>) -> Result<(), AllocError>
    ensures ok { OnOk result (into.new.items
        ≡ into.old.items ++ spaced (codes "use" ∷ use_words uses)) }
    ensures err { OnErr result (Grew into.old.items into.new.items) }
{
    let first = Word::Text(b"use");
    let Some(Uses { latest, old }) = uses else {
        return put_words(into, &[first, Word::Text(b"none")]);
    };
    let number = Word::Number(u64::from(latest.number));
    let before = Word::Number(u64::from(old.number));
    put_words(
        into,
        &[first, an_word(latest.an), number, an_word(old.an), before],
    )
}

/// Appends which key is given.
fn put_given(given: Option<Given>, into: &mut Vec<u8>) -> Result<(), AllocError>
    ensures ok { OnOk result (into.new.items
        ≡ into.old.items ++ spaced (codes "given" ∷ given_words given)) }
    ensures err { OnErr result (Grew into.old.items into.new.items) }
{
    let first = Word::Text(b"given");
    match given {
        None => put_words(into, &[first, Word::Text(b"none")]),
        Some(Given { an, number, .. }) => {
            put_words(into, &[first, Word::Number(u64::from(number)), an_word(an)])
        }
    }
}

/// Appends why a packet spells nothing.
fn put_refusal(refusal: Refusal, into: &mut Vec<u8>) -> Result<(), AllocError>
    ensures ok { OnOk result (into.new.items ≡ into.old.items ++ spaced (refusal_words refusal)) }
    ensures err { OnErr result (Grew into.old.items into.new.items) }
{
    let mka = Word::Text(b"mka");
    let drop = Word::Text(b"drop");
    match refusal {
        Refusal::NotMka => put_words(into, &[Word::Text(b"other")]),
        Refusal::Short => put_words(into, &[mka, drop, Word::Text(b"short")]),
        Refusal::Shape { at } => {
            put_words(
                into,
                &[mka, drop, Word::Text(b"shape"), Word::Number(at as u64)],
            )
        }
        Refusal::Repeated { kind } => {
            let kind = Word::Number(u64::from(kind));
            put_words(into, &[mka, drop, Word::Text(b"repeated"), kind])
        }
        Refusal::Agility => put_words(into, &[mka, drop, Word::Text(b"agility")]),
    }
}

/// A flag as 0 or 1.
fn flag_word(flag: bool) -> Word<'static>
    ensures { word_text result ≡ decimal (if flag then 1 else 0) }
{
    Word::Number(if flag { 1 } else { 0 })
}

/// An association number in decimal.
fn an_word(an: AssociationNumber) -> Word<'static>
    ensures { word_text result ≡ decimal (number_of an) }
{
    Word::Number(u64::from(an.number()))
}
