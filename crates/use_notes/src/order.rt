//! In which order packet numbers came, over all keys and senders.

ghost use Rattle.std.specs.Prelude.{◌≡◌, ◌+◌, min, max, nat_lt, fold, sum_by, count_by};
ghost use Rattle.use_notes.specs.Uses.{order_of};

use crate::notes::Use;

/// The greatest packet number after which a key server is to make a new key (IEEE Std 802.1X, pending
/// exhaustion of packet numbers).
const PENDING_EXHAUSTION: u32 = 0xC000_0000;

/// In which order packet numbers came, over all keys and senders.
#[derive(Clone, Copy, Debug, PartialEq, Eq)]
pub struct Order {
    /// How many new frames have a packet number below one before, as far as they can be counted.
    pub fell: u64,
    /// The greatest of the least replay windows.
    pub window: u64,
    /// Of how many keys and senders the greatest packet number is above 3,221,225,472.
    pub high: usize,
}

impl Order {
    /// Of what is told of each key and sender.
    pub fn of(uses: &[Use]) -> Order
        ensures { result ≡ order_of uses.now }
    {
        Order {
            fell: fallen(uses),
            window: widest(uses),
            high: high(uses),
        }
    }
}

/// How many fell.
fn fallen(uses: &[Use]) -> u64
    ensures { result ≡ fold (λ n u. min (n + u.counts.fell) 18446744073709551615) 0 uses.now }
{
    uses.iter().fold(
        0,
        |n: u64, one| n.saturating_add(u64::from(one.counts.fell)),
    )
}

/// The greatest window.
fn widest(uses: &[Use]) -> u64
    ensures { result ≡ fold (λ w u. max w u.counts.window) 0 uses.now }
{
    uses.iter().fold(0, |w: u64, one| w.max(one.counts.window))
}

/// Of how many the greatest packet number is high.
fn high(uses: &[Use]) -> usize
    ensures { result ≡ count_by (λ u. nat_lt 3221225472 u.counts.high) uses.now }
{
    uses.iter()
        .filter(|one| PENDING_EXHAUSTION < one.counts.high)
        .count()
}
