//! A source is read in pieces to its end, within a limit.

ghost use Rattle.std.specs.Prelude.{◌≡◌, ◌≤◌};
ghost use Rattle.text_lines.specs.declared.reading.End.TheVariants as ends;
ghost use Rattle.text_lines.specs.Ends.{end_of};
ghost use Rattle.text_lines.specs.Moments.{moment};
ghost use Rattle.text_lines.specs.Reading.{Reads, sourced};
ghost use Rattle.text_lines.specs.Turns.{InTurn};
ghost use Rattle.text_lines.specs.inside.Fed.{limited};

use crate::feeding::{feed, last};
use crate::taker::LineTaker;
use lan_base::{ReadEnd, Source};
use std::alloc::{AllocFailed, Global};

/// How many octets are asked for at a time.
const BUFFER: usize = 4096;

/// Why a text or a file was not read and taken to its end.
#[derive(Drop)]
pub enum End<E: Drop> {
    /// A line or a packet was refused.
    Refused(E),
    /// There was no memory for it.
    Memory,
    /// The source failed.
    ReadFault,
    /// An octet past the limit was taken.
    Limit,
}

impl<E: Drop> From<ReadEnd> for End<E> {
    ghost from_gives = { λ why end. end ≡ end_of why };

    fn from(why: ReadEnd) -> Self {
        match why {
            ReadEnd::Limit => End::Limit,
            ReadEnd::Failed => End::ReadFault,
            ReadEnd::Memory => End::Memory,
        }
    }
}

impl<E: Drop, T: Drop> From<AllocFailed<T>> for End<E> {
    ghost from_gives = { λ _ end. end ≡ ends.Memory };

    fn from(_: AllocFailed<T>) -> Self {
        End::Memory
    }
}

/// Reads a text from a source to its end, and hands on each line as soon as it has ended: 4,096
/// octets are asked for at a time, and no more before the lines in them were taken. Of a text that
/// is longer than the limit those lines are handed on that end within it.
pub fn read_lines<S: Source, K, T: LineTaker<K>>(
    alloc: Global,
    limit: usize,
    source: &mut S,
    taker: &mut T,
    outlet: &mut K,
) -> Result<(), End<T::Error>>
    requires { T.Asks }
    ensures reads { Reads T.Did limit
        (sourced (S.left source.old) (S.faults source.old))
        (sourced (S.left source.new) (S.faults source.new))
        (moment taker.old outlet.old) (moment taker.new outlet.new) result }
    ensures turns { InTurn S.Gave T.Did limit source.old source.new
        (moment taker.old outlet.old) (moment taker.new outlet.new) result }
    ensures counts { S.faults source.old ≤ S.faults source.new }
{
    let mut begun = Vec::new(alloc);
    let mut buffer = [0; BUFFER];
    let mut total = 0;
    loop {
        let Ok(count) = source.read(&mut buffer) else {
            return Err(End::ReadFault);
        };
        if count == 0 {
            return last(taker, begun.as_slice(), outlet);
        }
        if limit - total < count {
            return limited(feed(taker, &mut begun, &buffer[..limit - total], outlet));
        }
        total += count;
        feed(taker, &mut begun, &buffer[..count], outlet)?;
    }
}

/// The lines within the limit were handed on, and an octet past it was taken.
fn limited<E: Drop>(fed: Result<(), End<E>>) -> Result<(), End<E>>
    ensures { result ≡ limited fed }
{
    match fed {
        Ok(()) => Err(End::Limit),
        Err(end) => Err(end),
    }
}
