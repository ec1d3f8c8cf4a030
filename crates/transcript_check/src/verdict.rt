//! The verdict on a transcript.

ghost use Rattle.std.specs.Prelude.{◌≡◌, ◌++◌, ◌∷◌, map, IfOk, OnOk};
ghost use Rattle.trace_text.specs.Appending.{word_text};
ghost use Rattle.transcript_check.specs.Verdicts.{is_clean, line_of, pair_words, text_of};

use std::alloc::{AllocError, Global};
use trace_text::{Word, put_words};

/// What a transcript comes to. Lines are numbered from 1.
#[derive(Clone, Copy, Debug, PartialEq, Eq)]
pub struct Verdict {
    /// The first two claims of one packet number of a station under one SAK: the earlier line, and
    /// the later, which is the least of all such pairs.
    pub once: Option<(u64, u64)>,
    /// The first two installs that name two keys by one identifier, in the same way.
    pub one_key: Option<(u64, u64)>,
    /// How many protected frames no key stood for.
    pub missed: u64,
}

impl Verdict {
    /// Whether no pair is there.
    pub fn is_clean(&self) -> bool
        ensures { result ≡ is_clean self.now }
    {
        self.once.is_none() && self.one_key.is_none()
    }

    /// Its text: a line for each of its parts.
    pub fn text(&self, alloc: Global) -> Result<Vec<u8>, AllocError>
        ensures { IfOk result (λ text. text.items ≡ text_of self.now) }
    {
        let mut text = Vec::new(alloc);
        put_pair(&mut text, b"once", self.once)?;
        put_pair(&mut text, b"onekey", self.one_key)?;
        put(&mut text, b"missed", &[Word::Number(self.missed)])?;
        Ok(text)
    }
}

/// Appends the line of a pair, under a first word.
fn put_pair(into: &mut Vec<u8>, first: &[u8], pair: Option<(u64, u64)>) -> Result<(), AllocError>
    ensures { OnOk result (into.new.items
        ≡ into.old.items ++ line_of (first.now ∷ pair_words pair)) }
{
    match pair {
        None => put(into, first, &[Word::Text(b"ok")]),
        Some((earlier, later)) => put(
            into,
            first,
            &[
                Word::Text(b"broken"),
                Word::Number(earlier),
                Word::Number(later),
            ],
        ),
    }
}

/// Appends a line: its first word, and each further word behind a space.
fn put(into: &mut Vec<u8>, first: &[u8], words: &[Word]) -> Result<(), AllocError>
    ensures { OnOk result (into.new.items
        ≡ into.old.items ++ line_of (first.now ∷ map word_text words.now)) }
{
    into.extend_from_slice(first)?;
    put_words(into, words)?;
    into.push(b'\n')?;
    Ok(())
}
