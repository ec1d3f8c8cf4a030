//! Numbers in either order of octets.

ghost use Rattle.std.specs.Prelude.{◌≡◌, ◌+◌, ◌≤◌, length};
ghost use Rattle.capture_packets.specs.Numbers.{half_at, number_at};

use byteorder::{BigEndian, ByteOrder, LittleEndian};
use capture_file::Order;

/// The number in four octets from a place on.
pub fn number(order: Order, place: usize, octets: &[u8]) -> u32
    requires { place + 4 ≤ length octets.now }
    ensures { result ≡ number_at order place octets.now }
{
    let (_, octets) = octets.split_at(place);
    match order {
        Order::Big => BigEndian::read_u32(octets),
        Order::Little => LittleEndian::read_u32(octets),
    }
}

/// The number in two octets from a place on.
pub fn half(order: Order, place: usize, octets: &[u8]) -> u16
    requires { place + 2 ≤ length octets.now }
    ensures { result ≡ half_at order place octets.now }
{
    let (_, octets) = octets.split_at(place);
    match order {
        Order::Big => BigEndian::read_u16(octets),
        Order::Little => LittleEndian::read_u16(octets),
    }
}
