//! The words of each enum that a line tells by a table: what tells a value, and the value that is told
//! so.

ghost use Rattle.std.specs.Prelude.{◌≡◌, ◌^◌, ◌∷◌, [], ℕ, List, Some, None, map, decimal, nat_lt, if◌then◌else◌};
ghost use Rattle.mka_station.specs.declared.verdict.DropReason.TheVariants.{Unspelled, Refused};
ghost use Rattle.transcript.specs.Words.{spelled, cause_text, causes, frame_text, secs, why_words, whys, reason_words, reasons, verdict_words, vouches, lack_words, lacks};
ghost use Rattle.transcript.specs.inside.Appending.{told};
ghost use Rattle.transcript.specs.inside.Tables.{letters_of, named, alone, counted, value_of};

use lan_core::Lack;
use mka_station::{DropReason, Verdict};
use mkpdu_codec::Refusal;
use peer_lists::PeerRefusal;
use sak_exchange::{Cause, Why};

/// What tells a value: a word, and a number behind it, if the value has one.
#[derive(Clone, Copy)]
pub struct Told<'a> {
    pub word: &'a [u8],
    pub number: Option<u64>,
}

impl<'a> Told<'a> {
    /// A word alone.
    pub fn alone(word: &'a [u8]) -> Told<'a>
        ensures { told result ≡ word.now ∷ [] }
    {
        Told { word, number: None }
    }

    /// A word, and a number behind it.
    pub fn counted(word: &'a [u8], number: u64) -> Told<'a>
        ensures { told result ≡ word.now ∷ decimal number ∷ [] }
    {
        Told {
            word,
            number: Some(number),
        }
    }
}

// ---- why a key begins

pub fn cause_text(cause: Cause) -> &'static [u8]
    ensures { result.now ≡ cause_text cause }
{
    match cause {
        Cause::All => b"all",
        Cause::Timeout => b"timeout",
        Cause::Flag => b"flag",
    }
}

pub fn cause_of(word: &[u8]) -> Option<Cause>
    ensures { result ≡ named cause_text causes word.now }
{
    if word == b"all".as_slice() {
        return Some(Cause::All);
    }
    if word == b"timeout".as_slice() {
        return Some(Cause::Timeout);
    }
    if word == b"flag".as_slice() {
        return Some(Cause::Flag);
    }
    None
}

// ---- whether a frame is a protected one

pub fn frame_text(sec: bool) -> &'static [u8]
    ensures { result.now ≡ frame_text sec }
{
    if sec { b"sec" } else { b"mka" }
}

pub fn sec_of(word: &[u8]) -> Option<bool>
    ensures { result ≡ named frame_text secs word.now }
{
    if word == b"sec".as_slice() {
        return Some(true);
    }
    if word == b"mka".as_slice() {
        return Some(false);
    }
    None
}

// ---- why a key is not taken

pub fn why_told(why: Why) -> Told<'static>
    ensures { (names : List (List ℕ)) → map (spelled names) (why_words why) ≡ told result }
{
    match why {
        Why::NotListed => Told::alone(b"notlisted"),
        Why::NotServer => Told::alone(b"notserver"),
        Why::Seen { kept } => Told::counted(b"seen", u64::from(kept)),
        Why::Retiring => Told::alone(b"retiring"),
        Why::Suite => Told::alone(b"suite"),
        Why::Offset => Told::alone(b"offset"),
        Why::Wrap => Told::alone(b"wrap"),
    }
}

pub fn why_of(told: Told) -> Option<Why>
    ensures { result ≡ value_of why_words whys told.entry.word.now told.entry.number }
{
    match told.number {
        None => why_alone(told.word),
        Some(number) => why_counted(told.word, number),
    }
}

fn why_alone(word: &[u8]) -> Option<Why>
    ensures { result ≡ alone why_words whys word.now }
{
    if word == b"notlisted".as_slice() {
        return Some(Why::NotListed);
    }
    if word == b"notserver".as_slice() {
        return Some(Why::NotServer);
    }
    if word == b"retiring".as_slice() {
        return Some(Why::Retiring);
    }
    if word == b"suite".as_slice() {
        return Some(Why::Suite);
    }
    if word == b"offset".as_slice() {
        return Some(Why::Offset);
    }
    if word == b"wrap".as_slice() {
        return Some(Why::Wrap);
    }
    None
}

fn why_counted(word: &[u8], number: u64) -> Option<Why>
    ensures { result ≡ counted why_words whys word.now number }
{
    if word == b"seen".as_slice() {
        let kept = of_32_bits(number)?;
        return Some(Why::Seen { kept });
    }
    None
}

// ---- why a frame is dropped

pub fn reason_told(reason: DropReason) -> Told<'static>
    ensures { (names : List (List ℕ)) → map (spelled names) (reason_words reason) ≡ told result }
{
    match reason {
        DropReason::Unspelled(refusal) => refusal_told(refusal),
        DropReason::CkName => Told::alone(b"ckname"),
        DropReason::Check => Told::alone(b"check"),
        DropReason::Refused(refusal) => peer_refusal_told(refusal),
    }
}

fn refusal_told(refusal: Refusal) -> Told<'static>
    ensures { (names : List (List ℕ))
        → map (spelled names) (reason_words (Unspelled refusal)) ≡ told result }
{
    match refusal {
        Refusal::NotMka => Told::alone(b"notmka"),
        Refusal::Short => Told::alone(b"short"),
        Refusal::Shape { at } => Told::counted(b"shape", at as u64),
        Refusal::Repeated { kind } => Told::counted(b"repeated", u64::from(kind)),
        Refusal::Agility => Told::alone(b"agility"),
    }
}

fn peer_refusal_told(refusal: PeerRefusal) -> Told<'static>
    ensures { (names : List (List ℕ))
        → map (spelled names) (reason_words (Refused refusal)) ≡ told result }
{
    match refusal {
        PeerRefusal::Echo => Told::alone(b"echo"),
        PeerRefusal::OldNumber { kept } => Told::counted(b"oldnumber", u64::from(kept)),
        PeerRefusal::PeersFull => Told::alone(b"peersfull"),
    }
}

pub fn reason_of(told: Told) -> Option<DropReason>
    ensures { result ≡ value_of reason_words reasons told.entry.word.now told.entry.number }
{
    match told.number {
        None => reason_alone(told.word),
        Some(number) => reason_counted(told.word, number),
    }
}

fn reason_alone(word: &[u8]) -> Option<DropReason>
    ensures { result ≡ alone reason_words reasons word.now }
{
    if word == b"notmka".as_slice() {
        return Some(DropReason::Unspelled(Refusal::NotMka));
    }
    if word == b"short".as_slice() {
        return Some(DropReason::Unspelled(Refusal::Short));
    }
    if word == b"agility".as_slice() {
        return Some(DropReason::Unspelled(Refusal::Agility));
    }
    if word == b"ckname".as_slice() {
        return Some(DropReason::CkName);
    }
    if word == b"check".as_slice() {
        return Some(DropReason::Check);
    }
    if word == b"echo".as_slice() {
        return Some(DropReason::Refused(PeerRefusal::Echo));
    }
    if word == b"peersfull".as_slice() {
        return Some(DropReason::Refused(PeerRefusal::PeersFull));
    }
    None
}

fn reason_counted(word: &[u8], number: u64) -> Option<DropReason>
    ensures { result ≡ counted reason_words reasons word.now number }
{
    if word == b"shape".as_slice() {
        return Some(DropReason::Unspelled(Refusal::Shape {
            at: number as usize,
        }));
    }
    if word == b"repeated".as_slice() {
        let kind = of_8_bits(number)?;
        return Some(DropReason::Unspelled(Refusal::Repeated { kind }));
    }
    if word == b"oldnumber".as_slice() {
        let kept = of_32_bits(number)?;
        return Some(DropReason::Refused(PeerRefusal::OldNumber { kept }));
    }
    None
}

// ---- what hearing a frame comes to

/// The first word of a verdict; behind `drop` stands what tells why.
pub fn verdict_word(verdict: Verdict) -> &'static [u8]
    ensures { result.now ≡ letters_of (verdict_words verdict) }
{
    match verdict {
        Verdict::Vouched => b"vouched",
        Verdict::Unvouched => b"unvouched",
        Verdict::Dropped(_) => b"drop",
    }
}

/// The verdict of an accepted frame.
pub fn accepted_of(told: Told) -> Option<Verdict>
    ensures { result ≡ value_of verdict_words vouches told.entry.word.now told.entry.number }
{
    match told.number {
        None => accepted_alone(told.word),
        Some(_) => None,
    }
}

fn accepted_alone(word: &[u8]) -> Option<Verdict>
    ensures { result ≡ alone verdict_words vouches word.now }
{
    if word == b"vouched".as_slice() {
        return Some(Verdict::Vouched);
    }
    if word == b"unvouched".as_slice() {
        return Some(Verdict::Unvouched);
    }
    None
}

// ---- why a station got no packet number

pub fn lack_told(why: Lack) -> Told<'static>
    ensures { (names : List (List ℕ)) → map (spelled names) (lack_words why) ≡ told result }
{
    match why {
        Lack::NoKey => Told::alone(b"nokey"),
        Lack::Exhausted { epoch } => Told::counted(b"exhausted", u64::from(epoch)),
    }
}

pub fn lack_of(told: Told) -> Option<Lack>
    ensures { result ≡ value_of lack_words lacks told.entry.word.now told.entry.number }
{
    match told.number {
        None => lack_alone(told.word),
        Some(number) => lack_counted(told.word, number),
    }
}

fn lack_alone(word: &[u8]) -> Option<Lack>
    ensures { result ≡ alone lack_words lacks word.now }
{
    if word == b"nokey".as_slice() {
        return Some(Lack::NoKey);
    }
    None
}

fn lack_counted(word: &[u8], number: u64) -> Option<Lack>
    ensures { result ≡ counted lack_words lacks word.now number }
{
    if word == b"exhausted".as_slice() {
        let epoch = of_32_bits(number)?;
        return Some(Lack::Exhausted { epoch });
    }
    None
}

// ---- numbers of a type

fn of_8_bits(number: u64) -> Option<u8>
    ensures { result ≡ (if nat_lt number (2 ^ 8) then Some number else None) }
{
    if number < 1 << 8 {
        Some(number as u8)
    } else {
        None
    }
}

fn of_32_bits(number: u64) -> Option<u32>
    ensures { result ≡ (if nat_lt number (2 ^ 32) then Some number else None) }
{
    if number < 1 << 32 {
        Some(number as u32)
    } else {
        None
    }
}
