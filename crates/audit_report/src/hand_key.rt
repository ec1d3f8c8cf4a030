//! The line of a key that is set by hand.

ghost use Rattle.std.specs.Prelude.{◌≡◌, ◌++◌, OnOk};
ghost use Rattle.trace_text.specs.Appending.{word_text};
ghost use Rattle.audit_report.specs.Lines.{hand_line, sender_word};

use crate::lines::{end_with_key, number, suite};
use key_ring::HandKey;
use known_keys::Sender;
use std::alloc::AllocError;
use trace_text::{Word, put_words};

/// Appends the line of a key that is set by hand, with its number among the keys, and with `keys` the key
/// itself. An `Err` may leave a front of it.
pub fn put_hand_line(
    key: u32,
    hand: &HandKey,
    keys: bool,
    into: &mut Vec<u8>,
) -> Result<(), AllocError>
    ensures { OnOk result (into.new.items ≡ into.old.items ++ hand_line keys key hand.now) }
{
    into.extend_from_slice(b"line")?;
    put_words(
        into,
        &[
            number(hand.line),
            Word::Text(b"key"),
            number(key),
            Word::Text(b"sci"),
            sender_word(&hand.sender),
            Word::Text(b"an"),
            number(u32::from(hand.an.number())),
            Word::Text(b"suite"),
            suite(&hand.sak),
        ],
    )?;
    end_with_key(&hand.sak, keys, into)
}

/// Whose frames a key protects, as a word.
fn sender_word(sender: &Sender) -> Word<'_>
    ensures { word_text result ≡ sender_word sender.now }
{
    match sender {
        Sender::Any => Word::Text(b"any"),
        Sender::One(sci) => Word::Octets(&sci.0),
    }
}
