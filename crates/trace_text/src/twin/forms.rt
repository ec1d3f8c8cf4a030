//! The forms of a line of a trace of two groups: its own three, and those that it shares with a
//! trace of one group. Whether the words say a line is decided before memory is taken.

ghost use Rattle.std.specs.Prelude.{◌≡◌};
ghost use Rattle.trace_text.specs.Answering.{Answers};
ghost use Rattle.trace_text.specs.Words.{words_of};
ghost use Rattle.trace_text.specs.twin.Forms.{group2_of, adopt_of, leave_of};
ghost use Rattle.trace_text.specs.twin.Reading.{roll_line_of, plain_of, is_shared, shares};

use crate::twin::line::RollLine;
use crate::{
    Keyword, LineError, TextFault, decoded, expect_key, expect_octets, one_word, read_form,
    read_name, read_number, two_words,
};
use lan_base::CKN_MAX;
use std::alloc::Global;

/// The line that a first word and the words behind it say.
pub fn read_roll_form(alloc: Global, first: &[u8], rest: &[u8]) -> Result<RollLine, LineError>
    ensures { Answers result (roll_line_of first.now (words_of rest.now)) }
{
    if first == b"group2".as_slice() {
        return group2(alloc, rest);
    }
    if first == b"adopt".as_slice() {
        return Ok(adopt(rest)?);
    }
    if first == b"leave".as_slice() {
        return Ok(leave(rest)?);
    }
    if is_shared(first) {
        return plain(alloc, first, rest);
    }
    Err(LineError::Refused(TextFault::Word))
}

/// `group2 CAK CKN`.
fn group2(alloc: Global, rest: &[u8]) -> Result<RollLine, LineError>
    ensures { Answers result (group2_of (words_of rest.now)) }
{
    let (cak, ckn) = two_words(rest)?;
    expect_key(cak)?;
    expect_octets(ckn, 1, CKN_MAX)?;
    let cak = decoded(alloc, cak)?;
    let ckn = decoded(alloc, ckn)?;
    Ok(RollLine::Group2 { cak, ckn })
}

/// `adopt NAME`.
fn adopt(rest: &[u8]) -> Result<RollLine, TextFault>
    ensures { result ≡ adopt_of (words_of rest.now) }
{
    let name = read_name(one_word(rest)?)?;
    Ok(RollLine::Adopt { name })
}

/// `leave G NAME`.
fn leave(rest: &[u8]) -> Result<RollLine, TextFault>
    ensures { result ≡ leave_of (words_of rest.now) }
{
    let (group, name) = two_words(rest)?;
    let group = read_number(group, 0, u32::MAX)?;
    let name = read_name(name)?;
    Ok(RollLine::Leave { group, name })
}

/// A line as in a trace of one group.
fn plain(alloc: Global, first: &[u8], rest: &[u8]) -> Result<RollLine, LineError>
    ensures { Answers result (plain_of first.now (words_of rest.now)) }
{
    let line = read_form(alloc, first, rest)?;
    Ok(RollLine::Plain(line))
}

/// Whether a line that begins with this word stands in traces of one group and of two.
fn is_shared(word: &[u8]) -> bool
    ensures { result ≡ is_shared word.now }
{
    match Keyword::of(word) {
        Some(keyword) => shares(keyword),
        None => false,
    }
}

/// Whether lines of this keyword stand in traces of one group and of two.
fn shares(keyword: Keyword) -> bool
    ensures { result ≡ shares keyword }
{
    matches!(
        keyword,
        Keyword::Draws
            | Keyword::Conf
            | Keyword::Window
            | Keyword::Rekey
            | Keyword::Suite
            | Keyword::Flag
            | Keyword::Group
            | Keyword::Station
            | Keyword::Tick
            | Keyword::Flow
            | Keyword::Cut
            | Keyword::Mend
            | Keyword::Restart
            | Keyword::Send
    )
}
