//! Reading a file: its head, and the header of each record.

ghost use Rattle.std.specs.Prelude.{◌≡◌, ◌≤◌, length};
ghost use Rattle.capture_file.specs.Pcap.{head_read, is_magic, kept_read, link_type, number_in, order_of};

use crate::fault::CaptureFault;
use crate::order::Order;
use crate::writing::{ETHERNET, MICRO_MAGIC};
use byteorder::{BigEndian, ByteOrder, LittleEndian};

/// The magic number of times in nanoseconds.
pub const NANO_MAGIC: u32 = 0xa1b2_3c4d;

/// The most octets that are read of a packet.
pub const KEPT_MAX: u32 = 262_144;

/// Reads the head of a file: the order of its octets, or the first refusal.
pub fn head(octets: &[u8; 24]) -> Result<Order, CaptureFault>
    ensures { result ≡ head_read octets.now }
{
    let Some(order) = order_of(octets) else {
        return Err(CaptureFault::Magic);
    };
    if link_type(order, octets) != ETHERNET {
        return Err(CaptureFault::LinkType);
    }
    Ok(order)
}

/// Reads the header of a record: how many octets were kept of its packet, or the refusal.
pub fn kept(order: Order, octets: &[u8; 16]) -> Result<u32, CaptureFault>
    ensures { result ≡ kept_read order octets.now }
{
    let (_, behind) = octets.split_at(8);
    let count = number(order, behind);
    if count > KEPT_MAX {
        return Err(CaptureFault::Length);
    }
    Ok(count)
}

/// The order in which a head begins with a magic number.
fn order_of(head: &[u8; 24]) -> Option<Order>
    ensures { result ≡ order_of head.now }
{
    if is_magic(number(Order::Big, head)) {
        Some(Order::Big)
    } else if is_magic(number(Order::Little, head)) {
        Some(Order::Little)
    } else {
        None
    }
}

/// Whether a number is a magic number of the classic format.
fn is_magic(number: u32) -> bool
    ensures { result ≡ is_magic number }
{
    number == MICRO_MAGIC || number == NANO_MAGIC
}

/// The link type that a head tells.
fn link_type(order: Order, head: &[u8; 24]) -> u32
    ensures { result ≡ link_type order head.now }
{
    let (_, last) = head.split_at(20);
    number(order, last) % 0x1_0000
}

/// The number in the first four octets.
fn number(order: Order, octets: &[u8]) -> u32
    requires { 4 ≤ length octets.now }
    ensures { result ≡ number_in order octets.now }
{
    match order {
        Order::Big => BigEndian::read_u32(octets),
        Order::Little => LittleEndian::read_u32(octets),
    }
}
