//! The options of an interface.

ghost use Rattle.std.specs.Prelude.{◌≡◌, ◌≤◌, ◌+◌, length};
ghost use Rattle.capture_packets.specs.Numbers.{half_at, padded};
ghost use Rattle.capture_packets.specs.Options.{ticks_by, ticks_in, ticks_of};

use crate::numbers::half;
use capture_file::Order;

/// How many ticks a clock has a second where none are told.
const USUAL_TICKS: u64 = 1_000_000;

/// The option that tells them.
const RESOLUTION: u16 = 9;

/// How many octets an option has before its value.
const OPTION_LEN: usize = 4;

/// The ticks a second that the options of an interface tell, if they have their form.
pub fn read_ticks(order: Order, options: &[u8]) -> Option<u64>
    ensures { result ≡ ticks_in order options.now }
{
    let mut ticks = USUAL_TICKS;
    let mut rest = options;
    while !rest.is_empty() {
        if rest.len() < OPTION_LEN {
            return None;
        }
        if half(order, 0, rest) == 0 {
            return Some(ticks);
        }
        let count = option_len(order, rest);
        if rest.len() < count {
            return None;
        }
        ticks = ticks_by(order, ticks, rest)?;
        let (_, later) = rest.split_at(count);
        rest = later;
    }
    Some(ticks)
}

/// How many octets the first option has, with its padding.
fn option_len(order: Order, option: &[u8]) -> usize
    requires { 4 ≤ length option.now }
    ensures value { result ≡ 4 + padded (half_at order 2 option.now) }
    ensures some { 4 + half_at order 2 option.now ≤ result }
{
    let count = usize::from(half(order, 2, option));
    OPTION_LEN + (count + 3) / 4 * 4
}

/// The ticks that an option tells, beside those that were told before it.
fn ticks_by(order: Order, before: u64, option: &[u8]) -> Option<u64>
    requires there { 4 ≤ length option.now }
    requires whole { 4 + half_at order 2 option.now ≤ length option.now }
    ensures { result ≡ ticks_by order before option.now }
{
    if half(order, 0, option) != RESOLUTION {
        return Some(before);
    }
    if half(order, 2, option) != 1 {
        return None;
    }
    ticks_of(option[OPTION_LEN])
}

/// The ticks that the octet of an option tells: 10 to its power, or 2 to what it is above 128.
fn ticks_of(resolution: u8) -> Option<u64>
    ensures { result ≡ ticks_of resolution }
{
    if resolution < 128 {
        10_u64.checked_pow(u32::from(resolution))
    } else {
        2_u64.checked_pow(u32::from(resolution) - 128)
    }
}
