//! A line is appended.

ghost use Rattle.std.specs.Prelude.{◌≡◌, ◌++◌, [], map, OnOk, decimal};
ghost use Rattle.trace_text.specs.Appending.{word_text};
ghost use Rattle.audit_report.specs.Lines.{line_of, sak_part, suite_of};

use aes_block::Secret;
use std::alloc::AllocError;
use trace_text::{Word, put_words};

/// Appends a line. An `Err` may leave a front of it.
pub fn put_line(into: &mut Vec<u8>, first: &[u8], words: &[Word]) -> Result<(), AllocError>
    ensures { OnOk result (into.new.items
        ≡ into.old.items ++ line_of first.now (map word_text words.now)) }
{
    into.extend_from_slice(first)?;
    put_words(into, words)?;
    into.push(b'\n')?;
    Ok(())
}

/// A number as a word.
pub fn number(number: u32) -> Word<'static>
    ensures { word_text result ≡ decimal number }
{
    Word::Number(u64::from(number))
}

/// How many bits a key has, as a word.
pub fn suite(sak: &Secret) -> Word<'static>
    ensures { word_text result ≡ decimal (suite_of sak.now) }
{
    match sak {
        Secret::S128(_) => Word::Number(128),
        Secret::S256(_) => Word::Number(256),
    }
}

/// Appends the rest of the line of a key: with `keys` the key itself. An `Err` may leave a front of it.
pub fn end_with_key(sak: &Secret, keys: bool, into: &mut Vec<u8>) -> Result<(), AllocError>
    ensures { OnOk result (into.new.items
        ≡ into.old.items ++ line_of [] (sak_part keys sak.now)) }
{
    if keys {
        put_words(into, &[Word::Text(b"sak"), Word::Octets(sak.octets())])?;
    }
    into.push(b'\n')?;
    Ok(())
}
