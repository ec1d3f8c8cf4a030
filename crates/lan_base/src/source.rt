//! Where octets come from.

ghost use Rattle.std.specs.Prelude.{◌≡◌, ◌≢◌, ◌<◌, ◌≤◌, List, ℕ, Option, Err, length, take, IfOk, IfErr, OnOk, OnErr};
ghost use Rattle.lan_base.specs.Faults.{Rose};
ghost use Rattle.lan_base.specs.Given.{given};
ghost use Rattle.lan_base.specs.Told.{before, IsUsedUp, Took};

use crate::octets::Octets;
use std::alloc::{AllocError, Global};
use thiserror::Error;

/// The outside failed, and gave or took nothing.
#[derive(Clone, Copy, Debug, PartialEq, Eq, Error)]
#[error("the outside failed")]
pub struct Failed;

/// Where octets come from. A count of faults has risen, too, where it cannot rise: at 2^64 - 1.
pub trait Source {
    /// The octets that are left, where the source tells them.
    ghost left: { Self → Option (List ℕ) };

    /// How often the source has failed.
    ghost faults: { Self → ℕ };

    /// What one read gives: a piece, which is empty only at the end, or none: a fault.
    ghost Gave: { Self → Option (List ℕ) → Self → Type 0 };

    /// Moves octets into the front of a slice, and answers how many: 0 only at the end.
    fn read(&mut self, into: &mut [u8]) -> Result<usize, Failed>
        requires { 0 < length into.old }
        ensures fits { IfOk result (λ n. n ≤ length into.new) }
        ensures gave { Gave self.old (given result into.new) self.new }

        // What was left is what was moved and then what is left now.
        ensures moved { IfOk result
            (λ n. left self.old ≡ before (take n into.new) (left self.new)) }
        ensures end { IfOk result (λ n. n ≡ 0 → IsUsedUp (left self.old)) }

        // A fault shows in the count, and takes nothing.
        ensures failed { OnErr result (Rose (faults self.old) (faults self.new)) }
        ensures kept { OnErr result (left self.new ≡ left self.old) }
        ensures counts { faults self.old ≤ faults self.new };
}

/// Why a source was not read to its end.
#[derive(Clone, Copy, Debug, PartialEq, Eq, Error)]
pub enum ReadEnd {
    #[error("the source has more octets than the limit")]
    Limit,
    #[error("the source failed")]
    Failed,
    #[error("no memory is left")]
    Memory,
}

impl From<Failed> for ReadEnd {
    ghost use Rattle.std.specs.Prelude.{◌≡◌};
    ghost use Rattle.lan_base.specs.declared.source.ReadEnd.{ReadEnd};

    ghost from_gives = { λ _ end. end ≡ ReadEnd.Failed };

    fn from(_: Failed) -> Self {
        ReadEnd::Failed
    }
}

impl From<AllocError> for ReadEnd {
    ghost use Rattle.std.specs.Prelude.{◌≡◌};
    ghost use Rattle.lan_base.specs.declared.source.ReadEnd.{ReadEnd};

    ghost from_gives = { λ _ end. end ≡ ReadEnd.Memory };

    fn from(_: AllocError) -> Self {
        ReadEnd::Memory
    }
}

/// How many octets are asked for at a time.
const BUFFER: usize = 4096;

/// Reads a source to its end, if it has at most `limit` octets.
pub fn read_all<S: Source>(alloc: Global, source: &mut S, limit: usize) -> Result<Octets, ReadEnd>
    ensures all { IfOk result (λ octets. S.left source.old ≡ before octets (S.left source.new)) }
    ensures end { OnOk result (IsUsedUp (S.left source.new)) }
    ensures within { IfOk result (λ octets. length octets ≤ limit) }

    // `Limit` comes exactly where an octet past the limit was taken, and a fault shows in the
    // count.
    ensures past { result ≡ Err ReadEnd.Limit
        → Took (λ n. limit < n) (S.left source.old) (S.left source.new) }
    ensures not_past { IfErr result (λ e. e ≢ ReadEnd.Limit
        → Took (λ n. n ≤ limit) (S.left source.old) (S.left source.new)) }
    ensures failed { result ≡ Err ReadEnd.Failed
        → Rose (S.faults source.old) (S.faults source.new) }
    ensures counts { S.faults source.old ≤ S.faults source.new }
{
    let mut octets = Octets::new(alloc);
    let mut buffer = [0; BUFFER];
    loop {
        let count = source.read(&mut buffer)?;
        if count == 0 {
            return Ok(octets);
        }
        if limit - octets.len() < count {
            return Err(ReadEnd::Limit);
        }
        octets.extend(&buffer[..count])?;
    }
}
