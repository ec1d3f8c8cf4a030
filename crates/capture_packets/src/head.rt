//! The head of a file.

ghost use Rattle.std.specs.Prelude.{◌≡◌, ◌<◌, ◌≤◌, Err, length};
ghost use Rattle.capture_packets.specs.declared.fault.CaptureFault.TheVariants as faults;
ghost use Rattle.capture_packets.specs.Records.{parts_in};
ghost use Rattle.capture_packets.specs.Captures.{begins_file, head_in, records_head};

use crate::block::SECTION;
use crate::fault::CaptureFault;
use crate::numbers::number;
use crate::state::{Layout, Parts};
use capture_file::{ETHERNET, HEAD_LEN, MICRO_MAGIC, NANO_MAGIC, Order};

/// What a file is, by its head.
#[derive(Clone, Copy, Debug, PartialEq, Eq)]
pub struct Head {
    pub layout: Layout,
    pub order: Order,
}

/// What a file is by its first 24 octets, or those that it has, or the first refusal.
pub fn read_head(octets: &[u8]) -> Result<Head, CaptureFault>
    ensures value { result ≡ head_in octets.now }
    ensures cut { result ≡ Err faults.Cut → length octets.now < 24 }
{
    if octets.len() < 4 {
        return Err(CaptureFault::Cut);
    }
    if let Some(parts) = parts_in(Order::Big, octets) {
        return records_head(Order::Big, parts, octets);
    }
    if let Some(parts) = parts_in(Order::Little, octets) {
        return records_head(Order::Little, parts, octets);
    }
    if number(Order::Big, 0, octets) != SECTION {
        return Err(CaptureFault::Magic);
    }
    Ok(Head {
        layout: Layout::Blocks,
        order: Order::Big,
    })
}

/// Whether octets begin with one of the five magic numbers.
pub fn begins_file(octets: &[u8]) -> bool
    ensures { result ≡ begins_file octets.now }
{
    if octets.len() < 4 {
        return false;
    }
    parts_in(Order::Big, octets).is_some()
        || (parts_in(Order::Little, octets).is_some() || number(Order::Big, 0, octets) == SECTION)
}

/// What the parts of a second are, where octets begin with a magic number in this order.
fn parts_in(order: Order, octets: &[u8]) -> Option<Parts>
    requires { 4 ≤ length octets.now }
    ensures { result ≡ parts_in order octets.now }
{
    let magic = number(order, 0, octets);
    if magic == MICRO_MAGIC {
        Some(Parts::Micros)
    } else if magic == NANO_MAGIC {
        Some(Parts::Nanos)
    } else {
        None
    }
}

/// The head of a classic file.
fn records_head(order: Order, parts: Parts, octets: &[u8]) -> Result<Head, CaptureFault>
    requires { 4 ≤ length octets.now }
    ensures value { result ≡ records_head order parts octets.now }
    ensures cut { result ≡ Err faults.Cut → length octets.now < 24 }
{
    if octets.len() < HEAD_LEN {
        return Err(CaptureFault::Cut);
    }
    if number(order, 20, octets) % 0x1_0000 != ETHERNET {
        return Err(CaptureFault::LinkType);
    }
    Ok(Head {
        layout: Layout::Records(parts),
        order,
    })
}
