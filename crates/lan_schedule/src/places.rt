//! The places of stations, of which there are fewer than 256.

ghost use Rattle.std.specs.Prelude.{◌≡◌, ◌≤◌, length};
ghost use Rattle.lan_schedule.specs.World.{place_in};

use lan_base::Name;
use trace_acts::position;

/// The place of a name among these; where there is none, the count of them.
pub fn place(names: &[Name], name: &Name) -> u8
    ensures { length names.now ≤ 255 → result ≡ place_in name.now names.now }
{
    octet_of(position(names, name))
}

/// A number of at most 255, as a priority is, and a count or a place of stations.
pub fn octet_of(number: usize) -> u8
    ensures { number ≤ 255 → result ≡ number }
{
    u8::try_from(number).unwrap_or(u8::MAX)
}
