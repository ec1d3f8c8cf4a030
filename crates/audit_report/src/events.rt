//! The lines that are told of a packet, whether its own line is shown or not.

ghost use Rattle.std.specs.Prelude.{◌≡◌, ◌++◌, ◌∷◌, [], OnOk, codes, decimal};
ghost use Rattle.trace_text.specs.Words.{spaced};
ghost use Rattle.audit_report.specs.Lines.{line_of, packet_line};
ghost use Rattle.audit_report.specs.Packets.{event_lines, given_words, handed_lines, id_line, name_line, naming_lines, reuse_lines, sak_words, untaken_words, why_text};

use crate::finding::{Finding, Handed};
use crate::lines::{end_with_key, number, put_line, suite};
use aes_block::Secret;
use known_keys::{Gives, NoSak};
use lan_base::{AssociationNumber, KeyId};
use mkpdu_codec::ConfidentialityOffset;
use std::alloc::AllocError;
use trace_text::{Word, put_words};
use use_notes::{Novelty, RightFrame};

/// Appends the lines that are told of a packet, with `keys` keys themselves too. An `Err` may leave a front
/// of them.
pub fn put_events(
    packet: u32,
    finding: &Finding,
    keys: bool,
    into: &mut Vec<u8>,
) -> Result<(), AllocError>
    ensures { OnOk result (into.new.items ≡ into.old.items ++ event_lines keys packet finding.now) }
{
    match finding {
        Finding::RightFrame { frame, novelty } => put_reuse(packet, frame, *novelty, into),
        Finding::RightMkpdu {
            mkpdu,
            handed: Some(handed),
            ..
        } => put_handed(packet, mkpdu.group, handed, keys, into),
        _ => Ok(()),
    }
}

/// Appends the line of a frame that is reused.
fn put_reuse(
    packet: u32,
    frame: &RightFrame,
    novelty: Novelty,
    into: &mut Vec<u8>,
) -> Result<(), AllocError>
    ensures { OnOk result (into.new.items
        ≡ into.old.items ++ reuse_lines packet frame.now novelty) }
{
    let Novelty::Reused { first } = novelty else {
        return Ok(());
    };
    put_line(
        into,
        b"packet",
        &[
            number(packet),
            Word::Text(b"reuse"),
            Word::Text(b"key"),
            number(frame.key),
            Word::Text(b"sci"),
            Word::Octets(&frame.sci.0),
            Word::Text(b"pn"),
            number(frame.pn),
            Word::Text(b"first"),
            number(first),
        ],
    )
}

/// Appends what is told of a key that a packet of a group distributes.
fn put_handed(
    packet: u32,
    group: u32,
    handed: &Handed,
    keys: bool,
    into: &mut Vec<u8>,
) -> Result<(), AllocError>
    ensures { OnOk result (into.new.items
        ≡ into.old.items ++ handed_lines keys packet group handed.now) }
{
    match handed {
        Handed::Key {
            id,
            an,
            offset,
            sak,
            told,
        } => {
            if told.is_new {
                put_given(packet, told.key, group, id, into)?;
                put_sak(*an, *offset, sak, keys, into)?;
            }
            put_namings(packet, id, told, into)
        }
        Handed::Untaken { id, why, is_new } => {
            if *is_new {
                put_untaken(packet, id, *why, into)?;
            }
            Ok(())
        }
    }
}

/// Appends the front of the line of a key that is given.
fn put_given(
    packet: u32,
    key: u32,
    group: u32,
    id: &KeyId,
    into: &mut Vec<u8>,
) -> Result<(), AllocError>
    ensures { OnOk result (into.new.items
        ≡ into.old.items ++ (codes "packet" ++ spaced (decimal packet ∷ given_words key group id.now))) }
{
    into.extend_from_slice(b"packet")?;
    put_words(
        into,
        &[
            number(packet),
            Word::Text(b"key"),
            number(key),
            Word::Text(b"group"),
            number(group),
            Word::Text(b"ki"),
            Word::Octets(&id.server.0),
            number(id.number),
        ],
    )
}

/// Appends the rest of the line of a key that is given.
fn put_sak(
    an: AssociationNumber,
    offset: ConfidentialityOffset,
    sak: &Secret,
    keys: bool,
    into: &mut Vec<u8>,
) -> Result<(), AllocError>
    ensures { OnOk result (into.new.items
        ≡ into.old.items ++ line_of [] (sak_words keys an offset sak.now)) }
{
    put_words(
        into,
        &[
            Word::Text(b"an"),
            number(u32::from(an.number())),
            Word::Text(b"suite"),
            suite(sak),
            Word::Text(b"offset"),
            number(u32::from(offset.bits())),
        ],
    )?;
    end_with_key(sak, keys, into)
}

/// Appends the line of a key that is not taken.
fn put_untaken(packet: u32, id: &KeyId, why: NoSak, into: &mut Vec<u8>) -> Result<(), AllocError>
    ensures { OnOk result (into.new.items ≡ into.old.items ++ packet_line packet (untaken_words id.now why)) }
{
    put_line(
        into,
        b"packet",
        &[
            number(packet),
            Word::Text(b"untaken"),
            Word::Octets(&id.server.0),
            number(id.number),
            Word::Text(why_text(why)),
        ],
    )
}

/// The word that says why a key is not taken.
fn why_text(why: NoSak) -> &'static [u8]
    ensures { result.now ≡ why_text why }
{
    match why {
        NoSak::OtherSuite => b"suite",
        NoSak::WrongWrap => b"wrap",
    }
}

/// Appends the lines of a key that is given under its identifier and association number for the first
/// time, where one of both was given with another first.
fn put_namings(packet: u32, id: &KeyId, told: &Gives, into: &mut Vec<u8>) -> Result<(), AllocError>
    ensures { OnOk result (into.new.items ≡ into.old.items ++ naming_lines packet id.now told.now) }
{
    if told.is_new_naming {
        put_name(packet, id, told.other_name, into)?;
        put_id(packet, told.key, told.other_id, into)?;
    }
    Ok(())
}

/// Appends the line of an identifier that was given with another key or association number first.
fn put_name(
    packet: u32,
    id: &KeyId,
    first: Option<u32>,
    into: &mut Vec<u8>,
) -> Result<(), AllocError>
    ensures { OnOk result (into.new.items ≡ into.old.items ++ name_line packet id.now first) }
{
    let Some(first) = first else {
        return Ok(());
    };
    put_line(
        into,
        b"packet",
        &[
            number(packet),
            Word::Text(b"onekey"),
            Word::Text(b"ki"),
            Word::Octets(&id.server.0),
            number(id.number),
            Word::Text(b"first"),
            number(first),
        ],
    )
}

/// Appends the line of a key that was given under another identifier first.
fn put_id(packet: u32, key: u32, first: Option<u32>, into: &mut Vec<u8>) -> Result<(), AllocError>
    ensures { OnOk result (into.new.items ≡ into.old.items ++ id_line packet key first) }
{
    let Some(first) = first else {
        return Ok(());
    };
    put_line(
        into,
        b"packet",
        &[
            number(packet),
            Word::Text(b"onekey"),
            Word::Text(b"sak"),
            number(key),
            Word::Text(b"first"),
            number(first),
        ],
    )
}
