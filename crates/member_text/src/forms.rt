//! The forms of a line of a member's input: its own three, and those that it shares with a trace.
//! Whether the words say a line is decided before memory is taken.

ghost use Rattle.std.specs.Prelude.{◌≡◌};
ghost use Rattle.trace_text.specs.Answering.{Answers};
ghost use Rattle.trace_text.specs.Words.{words_of};
ghost use Rattle.member_text.specs.Forms.{member_of, next_of, tick_of, hear_of};
ghost use Rattle.member_text.specs.Reading.{member_line_of, plain_of, is_shared, shares};

use crate::line::MemberLine;
use lan_base::Sci;
use std::alloc::Global;
use trace_text::{
    Keyword, LineError, TextFault, decoded, expect_octets, one_word, read_array, read_form,
    read_name, read_number, three_words,
};

/// The greatest priority of a station.
const MAX_PRIORITY: u32 = 255;

/// The next packet number where none is left.
const NONE_LEFT: u64 = 0x1_0000_0000;

/// The most octets that are heard.
const HEARD_MAX: usize = 1600;

/// The line that a first word and the words behind it say.
pub fn read_member_form(alloc: Global, first: &[u8], rest: &[u8]) -> Result<MemberLine, LineError>
    ensures { Answers result (member_line_of first.now (words_of rest.now)) }
{
    if first == b"member".as_slice() {
        return Ok(member(rest)?);
    }
    if first == b"tick".as_slice() {
        return Ok(tick(rest)?);
    }
    if first == b"hear".as_slice() {
        return hear(alloc, rest);
    }
    if is_shared(first) {
        return plain(alloc, first, rest);
    }
    Err(LineError::Refused(TextFault::Word))
}

/// `member NAME SCI P`.
fn member(rest: &[u8]) -> Result<MemberLine, TextFault>
    ensures { result ≡ member_of (words_of rest.now) }
{
    let (name, sci, priority) = three_words(rest)?;
    let name = read_name(name)?;
    let sci = Sci(read_array(sci)?);
    let priority = read_number(priority, 0, MAX_PRIORITY)?;
    Ok(MemberLine::Member {
        name,
        sci,
        priority,
    })
}

/// `tick NEXT LATEST OLD`.
fn tick(rest: &[u8]) -> Result<MemberLine, TextFault>
    ensures { result ≡ tick_of (words_of rest.now) }
{
    let (next, latest, old) = three_words(rest)?;
    let next = read_next(next)?;
    let latest = read_number(latest, 0, u32::MAX)?;
    let old = read_number(old, 0, u32::MAX)?;
    Ok(MemberLine::Tick { next, latest, old })
}

/// The next packet number that a word spells. The one that says that none is left has as many digits as
/// a number may have, and so one spelling.
fn read_next(word: &[u8]) -> Result<u64, TextFault>
    ensures { result ≡ next_of word.now }
{
    if word == b"4294967296".as_slice() {
        return Ok(NONE_LEFT);
    }
    let next = read_number(word, 0, u32::MAX)?;
    Ok(u64::from(next))
}

/// `hear OCTETS`.
fn hear(alloc: Global, rest: &[u8]) -> Result<MemberLine, LineError>
    ensures { Answers result (hear_of (words_of rest.now)) }
{
    let word = one_word(rest)?;
    expect_octets(word, 1, HEARD_MAX)?;
    let octets = decoded(alloc, word)?;
    Ok(MemberLine::Hear { octets })
}

/// A line as in a trace.
fn plain(alloc: Global, first: &[u8], rest: &[u8]) -> Result<MemberLine, LineError>
    ensures { Answers result (plain_of first.now (words_of rest.now)) }
{
    let line = read_form(alloc, first, rest)?;
    Ok(MemberLine::Plain(line))
}

/// Whether a line that begins with this word stands in a trace and in a member's input.
fn is_shared(word: &[u8]) -> bool
    ensures { result ≡ is_shared word.now }
{
    match Keyword::of(word) {
        Some(keyword) => shares(keyword),
        None => false,
    }
}

/// Whether lines of this keyword stand in a trace and in a member's input.
fn shares(keyword: Keyword) -> bool
    ensures { result ≡ shares keyword }
{
    matches!(
        keyword,
        Keyword::Draws
            | Keyword::Conf
            | Keyword::Rekey
            | Keyword::Suite
            | Keyword::Flag
            | Keyword::Group
            | Keyword::Restart
    )
}
