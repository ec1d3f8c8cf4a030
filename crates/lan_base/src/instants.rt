//! Times of packets in nanoseconds, beside the timers of key agreement.

ghost use Rattle.std.specs.Prelude.{◌≡◌};
ghost use Rattle.lan_base.specs.Instants.{is_recent, tick_nanos};

use crate::timers::LIFE_TIME;

/// A tick of key agreement, 0.1 s, in nanoseconds.
pub const TICK_NANOS: u64 = 100_000_000;

/// MKA Life Time, in nanoseconds.
const LIFE_NANOS: u64 = LIFE_TIME as u64 * TICK_NANOS;

/// The tick of the code is that of the definitions.
pub fn law_tick_nanos()
    ensures { TICK_NANOS ≡ tick_nanos }
{}

/// Whether a time is less than MKA Life Time before another, or behind it.
pub fn is_recent(nanos: u64, now: u64) -> bool
    ensures { result ≡ is_recent nanos now }
{
    now < nanos || now - nanos < LIFE_NANOS
}
