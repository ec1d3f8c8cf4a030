//! Where octets go.

ghost use Rattle.std.specs.Prelude.{◌≡◌, ◌<◌, ◌≤◌, ◌++◌, List, ℕ, Option, Err, length, take, IfOk, IfErr, OnOk, OnErr};
ghost use Rattle.lan_base.specs.Faults.{Rose};
ghost use Rattle.lan_base.specs.Told.{after};

use crate::octets::Octets;
use std::alloc::AllocError;
use thiserror::Error;

/// Why octets were not written.
#[derive(Clone, Copy, Debug, PartialEq, Eq, Error)]
pub enum Unwritten {
    #[error("the sink failed")]
    Failed,
    #[error("no memory is left")]
    Memory,
}

impl From<AllocError> for Unwritten {
    ghost use Rattle.std.specs.Prelude.{◌≡◌};
    ghost use Rattle.lan_base.specs.declared.sink.Unwritten.{Unwritten};

    ghost from_gives = { λ _ why. why ≡ Unwritten.Memory };

    fn from(_: AllocError) -> Self {
        Unwritten::Memory
    }
}

/// Where octets go. A count of faults has risen, too, where it cannot rise: at 2^64 - 1.
pub trait Sink {
    /// The octets that the sink holds, where it tells them.
    ghost held: { Self → Option (List ℕ) };

    /// How often the sink has failed.
    ghost faults: { Self → ℕ };

    /// Takes octets from the front of a piece, one at least, and answers how many.
    fn write(&mut self, piece: &[u8]) -> Result<usize, Unwritten>
        requires { 0 < length piece.now }
        ensures some { IfOk result (λ n. 0 < n) }
        ensures fits { IfOk result (λ n. n ≤ length piece.now) }
        ensures appended { IfOk result
            (λ n. held self.new ≡ after (held self.old) (take n piece.now)) }

        // A fault shows in the count; an error takes nothing.
        ensures failed { result ≡ Err Unwritten.Failed → Rose (faults self.old) (faults self.new) }
        ensures kept { OnErr result (held self.new ≡ held self.old) }
        ensures counts { faults self.old ≤ faults self.new };
}

/// Appends a piece to the octets that a sink holds, and answers how long it is.
pub(crate) fn hold(octets: &mut Octets, piece: &[u8]) -> Result<usize, Unwritten>
    ensures count { IfOk result (λ n. n ≡ length piece.now) }
    ensures ok { OnOk result (octets.new ≡ octets.old ++ piece.now) }
    ensures err { OnErr result (octets.new ≡ octets.old) }
    ensures memory { IfErr result (λ why. why ≡ Unwritten.Memory) }
{
    octets.extend(piece)?;
    Ok(piece.len())
}

/// Writes a whole piece, by as many calls as it takes. An error leaves a prefix of it written.
pub fn write_all<K: Sink>(sink: &mut K, octets: &[u8]) -> Result<(), Unwritten>
    ensures all { OnOk result (K.held sink.new ≡ after (K.held sink.old) octets.now) }
    ensures prefix { OnErr result ((n : ℕ) × (n < length octets.now)
        × (K.held sink.new ≡ after (K.held sink.old) (take n octets.now))) }
    ensures failed { result ≡ Err Unwritten.Failed → Rose (K.faults sink.old) (K.faults sink.new) }
    ensures counts { K.faults sink.old ≤ K.faults sink.new }
{
    let mut written = 0;
    while written < octets.len() {
        written += sink.write(&octets[written..])?;
    }
    Ok(())
}
