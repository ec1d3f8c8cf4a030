//! The kinds of facts, by the first word of a line, and what the words behind it say. Each is shown
//! with its line.

ghost use Rattle.std.specs.Prelude.{ℕ, List, ◌∷◌, option_map};
ghost use Rattle.mka_station.specs.declared.verdict.Verdict.TheVariants as verdicts;
ghost use Rattle.rx_slots.specs.declared.arrival.Arrival.{Arrival};
ghost use Rattle.lan_core.specs.declared.fact.Fact.{Fact};
ghost use Rattle.transcript.specs.inside.Reading.{along, life_tree, tick_tree, server_tree, drop_key_tree, retire_tree, begin_tree, install_tree, untaken_tree, frame_tree, heard_tree, claim_tree, noclaim_tree, data_tree, plain_tree, told_in, verdict_of, arrival_tree, accepted_tree, refused_tree, malformed_tree, missed_tree, late_tree};
ghost use Rattle.transcript.specs.Words.{reason_words, reasons};
ghost use Rattle.transcript.specs.inside.Taking.{words_behind, Takes, Answers};

use crate::fault::FactError;
use crate::tables::{accepted_of, lack_of, reason_of, why_of};
use crate::words;
use crate::words::{
    Held, held_key, key, label, labelled_an, labelled_epoch, member, next_word, no_word, number_32,
    number_64, station, told, told_by,
};
use lan_base::Name;
use lan_core::Fact;
use mka_station::Verdict;
use rx_slots::Arrival;
use std::alloc::Global;

/// The fact that a first word and the words behind it say, if it holds no list of octets. Claims,
/// of which a transcript may have the most, come first.
pub fn plain_fact(first: &[u8], rest: &[u8], names: &[Name]) -> Option<Fact>
    ensures { Takes (λ x. x) result
        (along names.now plain_tree (first.now ∷ words_behind rest.now)) }
{
    if first == b"claim".as_slice() {
        return claimed(rest, names);
    }
    if first == b"life".as_slice() {
        return life(rest, names);
    }
    if first == b"tick".as_slice() {
        return ticked(rest, names);
    }
    if first == b"server".as_slice() {
        return server(rest, names);
    }
    if first == b"drop".as_slice() {
        return dropped(rest, names);
    }
    if first == b"retire".as_slice() {
        return retired(rest, names);
    }
    if first == b"begin".as_slice() {
        return began(rest, names);
    }
    if first == b"install".as_slice() {
        return installed(rest, names);
    }
    if first == b"untaken".as_slice() {
        return untaken(rest, names);
    }
    if first == b"heard".as_slice() {
        return heard(rest, names);
    }
    if first == b"noclaim".as_slice() {
        return unclaimed(rest, names);
    }
    None
}

/// `life NAME MI`.
fn life(rest: &[u8], names: &[Name]) -> Option<Fact>
    ensures { Takes (λ x. x) result (along names.now life_tree (words_behind rest.now)) }
{
    let (station, rest) = station(rest, names)?;
    let (mi, rest) = member(rest)?;
    no_word(rest)?;
    Some(Fact::Life { station, mi })
}

/// `tick NAME AT next N`.
fn ticked(rest: &[u8], names: &[Name]) -> Option<Fact>
    ensures { Takes (λ x. x) result (along names.now tick_tree (words_behind rest.now)) }
{
    let (station, rest) = station(rest, names)?;
    let (at, rest) = number_32(rest)?;
    let rest = label(rest, b"next")?;
    let (next, rest) = number_64(rest)?;
    no_word(rest)?;
    Some(Fact::Ticked { station, at, next })
}

/// `server NAME MI`, or `none` in place of the MI.
fn server(rest: &[u8], names: &[Name]) -> Option<Fact>
    ensures { Takes (λ x. x) result (along names.now server_tree (words_behind rest.now)) }
{
    let (station, rest) = station(rest, names)?;
    let (mi, rest) = words::server(rest)?;
    no_word(rest)?;
    Some(Fact::Server { station, mi })
}

/// `drop NAME MI NUMBER an A`.
fn dropped(rest: &[u8], names: &[Name]) -> Option<Fact>
    ensures { Takes (λ x. x) result (along names.now drop_key_tree (words_behind rest.now)) }
{
    let (Held { station, id, an }, rest) = held_key(rest, names)?;
    no_word(rest)?;
    Some(Fact::Dropped { station, id, an })
}

/// `retire NAME MI NUMBER an A`.
fn retired(rest: &[u8], names: &[Name]) -> Option<Fact>
    ensures { Takes (λ x. x) result (along names.now retire_tree (words_behind rest.now)) }
{
    let (Held { station, id, an }, rest) = held_key(rest, names)?;
    no_word(rest)?;
    Some(Fact::Retired { station, id, an })
}

/// `begin NAME MI NUMBER an A epoch E CAUSE`.
fn began(rest: &[u8], names: &[Name]) -> Option<Fact>
    ensures { Takes (λ x. x) result (along names.now begin_tree (words_behind rest.now)) }
{
    let (Held { station, id, an }, rest) = held_key(rest, names)?;
    let (epoch, rest) = labelled_epoch(rest)?;
    let (cause, rest) = words::cause(rest)?;
    no_word(rest)?;
    Some(Fact::Began {
        station,
        id,
        an,
        epoch,
        cause,
    })
}

/// `install NAME MI NUMBER an A epoch E sak HEX`.
fn installed(rest: &[u8], names: &[Name]) -> Option<Fact>
    ensures { Takes (λ x. x) result (along names.now install_tree (words_behind rest.now)) }
{
    let (Held { station, id, an }, rest) = held_key(rest, names)?;
    let (epoch, rest) = labelled_epoch(rest)?;
    let rest = label(rest, b"sak")?;
    let (sak, rest) = words::secret(rest)?;
    no_word(rest)?;
    Some(Fact::Installed {
        station,
        id,
        an,
        epoch,
        sak,
    })
}

/// `untaken NAME MI NUMBER WHY`.
fn untaken(rest: &[u8], names: &[Name]) -> Option<Fact>
    ensures { Takes (λ x. x) result (along names.now untaken_tree (words_behind rest.now)) }
{
    let (station, rest) = station(rest, names)?;
    let (id, rest) = key(rest)?;
    let why = why_of(told(rest)?)?;
    Some(Fact::Untaken { station, id, why })
}

/// `frame K NAME KIND HEX`.
pub fn framed(alloc: Global, rest: &[u8], names: &[Name]) -> Result<Fact, FactError>
    ensures { Answers (λ x. x) result (along names.now frame_tree (words_behind rest.now)) }
{
    let (number, rest) = number_32(rest).ok_or(FactError::Unread)?;
    let (station, rest) = station(rest, names).ok_or(FactError::Unread)?;
    let (sec, rest) = words::sec(rest).ok_or(FactError::Unread)?;
    let octets = words::octets(alloc, rest)?;
    Ok(Fact::Framed {
        number,
        station,
        sec,
        octets,
    })
}

/// `heard K NAME VERDICT`.
fn heard(rest: &[u8], names: &[Name]) -> Option<Fact>
    ensures { Takes (λ x. x) result (along names.now heard_tree (words_behind rest.now)) }
{
    let (frame, rest) = number_32(rest)?;
    let (station, rest) = station(rest, names)?;
    let verdict = verdict(rest)?;
    Some(Fact::HeardMka {
        frame,
        station,
        verdict,
    })
}

/// `claim NAME an A epoch E pn PN`.
fn claimed(rest: &[u8], names: &[Name]) -> Option<Fact>
    ensures { Takes (λ x. x) result (along names.now claim_tree (words_behind rest.now)) }
{
    let (station, rest) = station(rest, names)?;
    let (an, rest) = labelled_an(rest)?;
    let (epoch, rest) = labelled_epoch(rest)?;
    let rest = label(rest, b"pn")?;
    let (pn, rest) = number_32(rest)?;
    no_word(rest)?;
    Some(Fact::Claimed {
        station,
        an,
        epoch,
        pn,
    })
}

/// `noclaim NAME LACK`.
fn unclaimed(rest: &[u8], names: &[Name]) -> Option<Fact>
    ensures { Takes (λ x. x) result (along names.now noclaim_tree (words_behind rest.now)) }
{
    let (station, rest) = station(rest, names)?;
    let why = lack_of(told(rest)?)?;
    Some(Fact::Unclaimed { station, why })
}

/// `data K NAME ARRIVAL`.
pub fn arrived(alloc: Global, rest: &[u8], names: &[Name]) -> Result<Fact, FactError>
    ensures { Answers (λ x. x) result (along names.now data_tree (words_behind rest.now)) }
{
    let (frame, rest) = number_32(rest).ok_or(FactError::Unread)?;
    let (station, rest) = station(rest, names).ok_or(FactError::Unread)?;
    let arrival = arrival(alloc, rest)?;
    Ok(Fact::Arrived {
        frame,
        station,
        arrival,
    })
}

/// What hearing a frame comes to.
fn verdict(rest: &[u8]) -> Option<Verdict>
    ensures { Takes (λ x. x) result (verdict_of (words_behind rest.now)) }
{
    let (word, rest) = next_word(rest)?;
    if word == b"drop".as_slice() {
        return dropped_frame(rest);
    }
    accepted_of(told_by(word, rest)?)
}

/// A frame that is dropped.
fn dropped_frame(rest: &[u8]) -> Option<Verdict>
    ensures { Takes (λ reason. reason) result (option_map (λ reason. verdicts.Dropped reason)
        (told_in reason_words reasons (words_behind rest.now))) }
{
    let reason = reason_of(told(rest)?)?;
    Some(Verdict::Dropped(reason))
}

/// The answer to a protected frame.
fn arrival(alloc: Global, rest: &[u8]) -> Result<Arrival, FactError>
    ensures { (names : List (List ℕ)) (f : Arrival → Fact)
        → Answers f result (along names (arrival_tree f) (words_behind rest.now)) }
{
    let (word, behind) = next_word(rest).ok_or(FactError::Unread)?;
    if word == b"accepted".as_slice() {
        return accepted(alloc, behind);
    }
    refused(rest).ok_or(FactError::Unread)
}

/// A packet number and user data.
fn accepted(alloc: Global, rest: &[u8]) -> Result<Arrival, FactError>
    ensures { (names : List (List ℕ)) (f : Arrival → Fact)
        → Answers f result (along names (accepted_tree f) (words_behind rest.now)) }
{
    let (pn, rest) = number_32(rest).ok_or(FactError::Unread)?;
    let body = words::octets(alloc, rest)?;
    Ok(Arrival::Accepted { pn, body })
}

/// The answer to a protected frame that is not accepted.
fn refused(rest: &[u8]) -> Option<Arrival>
    ensures { (names : List (List ℕ)) (f : Arrival → Fact)
        → Takes f result (along names (refused_tree f) (words_behind rest.now)) }
{
    let (word, rest) = next_word(rest)?;
    if word == b"malformed".as_slice() {
        return malformed(rest);
    }
    if word == b"own".as_slice() {
        no_word(rest)?;
        return Some(Arrival::Own);
    }
    if word == b"missed".as_slice() {
        return missed(rest);
    }
    if word == b"badcheck".as_slice() {
        no_word(rest)?;
        return Some(Arrival::BadCheck);
    }
    if word == b"late".as_slice() {
        return late(rest);
    }
    None
}

/// Why a frame is no protected one.
fn malformed(rest: &[u8]) -> Option<Arrival>
    ensures { (names : List (List ℕ)) (f : Arrival → Fact)
        → Takes f result (along names (malformed_tree f) (words_behind rest.now)) }
{
    let (refusal, rest) = words::tag(rest)?;
    no_word(rest)?;
    Some(Arrival::Malformed(refusal))
}

/// The association number that has no key.
fn missed(rest: &[u8]) -> Option<Arrival>
    ensures { (names : List (List ℕ)) (f : Arrival → Fact)
        → Takes f result (along names (missed_tree f) (words_behind rest.now)) }
{
    let (an, rest) = words::an(rest)?;
    no_word(rest)?;
    Some(Arrival::Missed { an })
}

/// The next packet number of the sender.
fn late(rest: &[u8]) -> Option<Arrival>
    ensures { (names : List (List ℕ)) (f : Arrival → Fact)
        → Takes f result (along names (late_tree f) (words_behind rest.now)) }
{
    let (next, rest) = number_64(rest)?;
    no_word(rest)?;
    Some(Arrival::Late { next })
}
