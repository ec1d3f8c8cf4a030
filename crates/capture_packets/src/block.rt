//! Records and blocks, by their fields.

ghost use Rattle.std.specs.Prelude.{◌≡◌, ◌<◌, Err, ◌≤◌, IfOk, length, true};
ghost use Rattle.capture_packets.specs.declared.fault.CaptureFault.TheVariants as faults;
ghost use Rattle.capture_packets.specs.Numbers.{number_at};
ghost use Rattle.capture_packets.specs.Blocks.{block_in, interface_in, is_total, least_total, marked_order, section_in, typed_in};

use crate::fault::CaptureFault;
use crate::numbers::{half, number};
use crate::packet::PacketHead;
use crate::packet_block::{read_enhanced, read_simple};
use crate::state::Interface;
use capture_file::{ETHERNET, Order};

/// The type of a section: it reads the same in both orders.
pub const SECTION: u32 = 0x0a0d_0d0a;

const INTERFACE: u32 = 1;

const OLD_PACKET: u32 = 2;

const SIMPLE: u32 = 3;

const ENHANCED: u32 = 6;

/// What octets 8 to 11 of a section are in its order.
const ORDER_MARK: u32 = 0x1a2b_3c4d;

/// What a block is.
#[derive(Clone, Copy, Debug, PartialEq, Eq)]
pub enum What {
    /// It begins a section, whose octets have this order.
    Section(Order),
    /// It describes an interface: whether its link is Ethernet, and the snap length. Its octets are
    /// options.
    Interface { is_ethernet: bool, snap: u32 },
    /// It has the octets of a packet.
    Packet(PacketHead),
    /// It is skipped.
    Other,
}

/// A record, or a block, by its fields: how many octets it has, and what it is.
#[derive(Clone, Copy, Debug, PartialEq, Eq)]
pub struct Block {
    /// So many octets stand before those that are kept.
    pub before: u32,
    /// So many are kept: those of a packet, or the options of an interface.
    pub kept: u32,
    /// So many stand behind these: padding, options, what is skipped. The total of a block isn't
    /// counted.
    pub behind: u32,
    pub what: What,
}

/// The block that octets begin with, by its fields, or the first refusal.
pub fn read_block(
    order: Order,
    interfaces: &[Interface],
    last: u64,
    octets: &[u8],
) -> Result<Block, CaptureFault>
    ensures value { result ≡ block_in order interfaces.now last octets.now }
    ensures there { IfOk result (λ b. (8 ≤ b.before) × (b.before ≤ length octets.now)) }
    ensures cut { result ≡ Err faults.Cut → length octets.now < 28 }
{
    if octets.len() < 8 {
        return Err(CaptureFault::Cut);
    }
    let kind = number(order, 0, octets);
    if kind == SECTION {
        read_section(octets)
    } else {
        read_typed(kind, order, interfaces, last, octets)
    }
}

/// A block of this type that is no section.
fn read_typed(
    kind: u32,
    order: Order,
    interfaces: &[Interface],
    last: u64,
    octets: &[u8],
) -> Result<Block, CaptureFault>
    requires { 8 ≤ length octets.now }
    ensures value { result ≡ typed_in kind order interfaces.now last octets.now }
    ensures there { IfOk result (λ b. (8 ≤ b.before) × (b.before ≤ length octets.now)) }
    ensures cut { result ≡ Err faults.Cut → length octets.now < 28 }
{
    let total = number(order, 4, octets);
    if !is_total(kind, total) {
        return Err(CaptureFault::Block);
    }
    match kind {
        INTERFACE => read_interface(order, octets),
        ENHANCED => read_enhanced(order, interfaces, octets),
        SIMPLE => read_simple(order, interfaces, last, octets),
        _ => Ok(Block {
            before: 8,
            kept: 0,
            behind: total - 12,
            what: What::Other,
        }),
    }
}

/// Whether a block of this type may have this total length.
fn is_total(kind: u32, total: u32) -> bool
    ensures value { result ≡ is_total kind total }
    ensures least { result ≡ true → least_total kind ≤ total }
    ensures any { result ≡ true → 12 ≤ total }
{
    total % 4 == 0 && (least_total(kind) <= total && kind != OLD_PACKET)
}

/// The least total length of a block of this type.
fn least_total(kind: u32) -> u32
    ensures value { result ≡ least_total kind }
    ensures any { 12 ≤ result }
{
    match kind {
        SECTION => 28,
        INTERFACE => 20,
        ENHANCED => 32,
        SIMPLE => 16,
        _ => 12,
    }
}

/// A section.
fn read_section(octets: &[u8]) -> Result<Block, CaptureFault>
    requires { 8 ≤ length octets.now }
    ensures value { result ≡ section_in octets.now }
    ensures there { IfOk result (λ b. (8 ≤ b.before) × (b.before ≤ length octets.now)) }
    ensures cut { result ≡ Err faults.Cut → length octets.now < 28 }
{
    if octets.len() < 12 {
        return Err(CaptureFault::Cut);
    }
    let Some(order) = marked_order(octets) else {
        return Err(CaptureFault::Block);
    };
    let total = number(order, 4, octets);
    if !is_total(SECTION, total) {
        return Err(CaptureFault::Block);
    }
    if octets.len() < 14 {
        return Err(CaptureFault::Cut);
    }
    if half(order, 12, octets) != 1 {
        return Err(CaptureFault::Block);
    }
    Ok(Block {
        before: 14,
        kept: 0,
        behind: total - 18,
        what: What::Section(order),
    })
}

/// The order in which the order mark of a section stands there.
fn marked_order(octets: &[u8]) -> Option<Order>
    requires { 12 ≤ length octets.now }
    ensures { result ≡ marked_order octets.now }
{
    if number(Order::Big, 8, octets) == ORDER_MARK {
        Some(Order::Big)
    } else if number(Order::Little, 8, octets) == ORDER_MARK {
        Some(Order::Little)
    } else {
        None
    }
}

/// An interface.
fn read_interface(order: Order, octets: &[u8]) -> Result<Block, CaptureFault>
    requires there { 8 ≤ length octets.now }
    requires total { 20 ≤ number_at order 4 octets.now }
    ensures value { result ≡ interface_in order octets.now }
    ensures there { IfOk result (λ b. (8 ≤ b.before) × (b.before ≤ length octets.now)) }
    ensures cut { result ≡ Err faults.Cut → length octets.now < 28 }
{
    if octets.len() < 16 {
        return Err(CaptureFault::Cut);
    }
    Ok(Block {
        before: 16,
        kept: number(order, 4, octets) - 20,
        behind: 0,
        what: What::Interface {
            is_ethernet: u32::from(half(order, 8, octets)) == ETHERNET,
            snap: number(order, 12, octets),
        },
    })
}
