//! The layout of the words: what stands in `specs/Words.antt`, on numbers of 64 bits.
ghost use Rattle.std.specs.Prelude.{◌≡◌, ◌^◌, ◌<◌};
ghost use Rattle.association_slots.specs.Steps.{answer};
ghost use Rattle.association_slots.specs.Words.{an_of, next_of, shown_by, open_word, present_word, absent_word};

use crate::view::{Added, Current};
use lan_base::AssociationNumber;

/// The bit that says that a slot is shut, or that a key is present.
pub(crate) const FLAG: u64 = 1 << 39;
/// The epoch stands from this bit on.
const EPOCH: u64 = 1 << 40;
/// Packet numbers are below this.
const NUMBERS: u64 = 1 << 32;

/// The next number in a slot word.
pub(crate) fn next_of(word: u64) -> u64
    ensures { result ≡ next_of word }
{
    word % FLAG
}

/// A slot that is open with the epoch, at that number.
pub(crate) fn open_word(epoch: u32, next: u32) -> u64
    requires { epoch < 2 ^ 24 }
    ensures { result ≡ open_word epoch next }
{
    u64::from(epoch) * EPOCH + u64::from(next)
}

/// A current word with the epoch present.
pub(crate) fn present_word(epoch: u32, an: AssociationNumber) -> u64
    requires { epoch < 2 ^ 24 }
    ensures { result ≡ present_word epoch an }
{
    u64::from(epoch) * EPOCH + (FLAG + u64::from(an.number()))
}

/// A current word with nothing present, after that epoch.
pub(crate) fn absent_word(epoch: u32) -> u64
    requires { epoch < 2 ^ 24 }
    ensures { result ≡ absent_word epoch }
{
    u64::from(epoch) * EPOCH
}

/// What a current word shows.
pub(crate) fn shown_by(word: u64) -> Current
    ensures { result ≡ shown_by word }
{
    Current {
        epoch: (word / EPOCH) as u32,
        present: word / FLAG % 2 == 1,
        an: an_of(word),
    }
}

/// The AN in a current word.
fn an_of(word: u64) -> AssociationNumber
    ensures { result ≡ an_of word }
{
    AssociationNumber::of_bits(word / 2 % 2 == 1, word % 2 == 1)
}

/// What an addition gave that found this slot word, after a load of the epoch.
pub(crate) fn answer(epoch: u32, word: u64) -> Added
    ensures { result ≡ answer epoch word }
{
    let next = next_of(word);
    if word / FLAG % 2 == 1 || word / EPOCH != u64::from(epoch) {
        Added::Gone
    } else if next < NUMBERS {
        Added::Number { pn: next as u32 }
    } else {
        Added::Over
    }
}
