//! The forms of a line of the key text. Whether the words say a line is decided before memory is
//! taken.

ghost use Rattle.std.specs.Prelude.{◌≡◌};
ghost use Rattle.trace_text.specs.Answering.{Answers};
ghost use Rattle.trace_text.specs.Words.{words_of};
ghost use Rattle.audit_text.specs.Forms.{capture_of, group_of, sak_of, sender_in};
ghost use Rattle.audit_text.specs.Reading.{key_line_of};

use crate::line::{KeyLine, Sender};
use lan_base::{CKN_MAX, Sci};
use std::alloc::Global;
use trace_text::{
    LineError, TextFault, decoded, expect_key, expect_octets, next_word, read_array, read_number,
    three_words, two_words,
};

/// The line that a first word and the words behind it say.
pub fn read_key_form(alloc: Global, first: &[u8], rest: &[u8]) -> Result<KeyLine, LineError>
    ensures { Answers result (key_line_of first.now (words_of rest.now)) }
{
    if first == b"group".as_slice() {
        return group(alloc, rest);
    }
    if first == b"sak".as_slice() {
        return sak(alloc, rest);
    }
    if first == b"capture".as_slice() {
        return capture(rest);
    }
    Err(LineError::Refused(TextFault::Word))
}

/// `group CAK CKN`.
fn group(alloc: Global, rest: &[u8]) -> Result<KeyLine, LineError>
    ensures { Answers result (group_of (words_of rest.now)) }
{
    let (cak, ckn) = two_words(rest)?;
    expect_key(cak)?;
    expect_octets(ckn, 1, CKN_MAX)?;
    let cak = decoded(alloc, cak)?;
    let ckn = decoded(alloc, ckn)?;
    Ok(KeyLine::Group { cak, ckn })
}

/// `sak SCI AN SAK`.
fn sak(alloc: Global, rest: &[u8]) -> Result<KeyLine, LineError>
    ensures { Answers result (sak_of (words_of rest.now)) }
{
    let (sender, an, sak) = three_words(rest)?;
    let sender = read_sender(sender)?;
    let an = read_number(an, 0, 3)?;
    expect_key(sak)?;
    let sak = decoded(alloc, sak)?;
    Ok(KeyLine::Sak { sender, an, sak })
}

/// The sender that a word tells: `any`, or an SCI.
fn read_sender(word: &[u8]) -> Result<Sender, TextFault>
    ensures { result ≡ sender_in word.now }
{
    if word == b"any".as_slice() {
        return Ok(Sender::Any);
    }
    let sci = read_array(word)?;
    Ok(Sender::One(Sci(sci)))
}

/// `capture`.
fn capture(rest: &[u8]) -> Result<KeyLine, LineError>
    ensures { Answers result (capture_of (words_of rest.now)) }
{
    match next_word(rest) {
        None => Ok(KeyLine::Capture),
        Some(_) => Err(LineError::Refused(TextFault::Count)),
    }
}
