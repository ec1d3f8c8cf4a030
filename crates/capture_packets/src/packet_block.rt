//! Blocks that have a packet.

ghost use Rattle.std.specs.Prelude.{◌≡◌, ◌<◌, Err, ◌+◌, ◌≤◌, IfOk, length, slice_get};
ghost use Rattle.capture_packets.specs.declared.fault.CaptureFault.TheVariants as faults;
ghost use Rattle.capture_packets.specs.Numbers.{padded};
ghost use Rattle.capture_packets.specs.Blocks.{enhanced_head, enhanced_in, kept_under, nanos_of, packet_by, simple_in};

use crate::block::{Block, What};
use crate::fault::CaptureFault;
use crate::numbers::number;
use crate::packet::PacketHead;
use crate::state::Interface;
use capture_file::{KEPT_MAX, Order};

/// An enhanced packet.
pub fn read_enhanced(
    order: Order,
    interfaces: &[Interface],
    octets: &[u8],
) -> Result<Block, CaptureFault>
    requires { 8 ≤ length octets.now }
    ensures value { result ≡ enhanced_in order interfaces.now octets.now }
    ensures there { IfOk result (λ b. (8 ≤ b.before) × (b.before ≤ length octets.now)) }
    ensures cut { result ≡ Err faults.Cut → length octets.now < 28 }
{
    if octets.len() < 28 {
        return Err(CaptureFault::Cut);
    }
    let Some(interface) = interface_at(interfaces, number(order, 8, octets)) else {
        return Err(CaptureFault::Interface);
    };
    let what = What::Packet(enhanced_head(order, interface, octets));
    packet_of(
        number(order, 4, octets),
        28,
        number(order, 20, octets),
        what,
    )
}

/// The interface of this number, if the section has it.
fn interface_at(interfaces: &[Interface], index: u32) -> Option<Interface>
    ensures { result ≡ slice_get interfaces.now index }
{
    interfaces.get(index as usize).copied()
}

/// What an enhanced packet of this interface tells beside its octets.
fn enhanced_head(order: Order, interface: Interface, octets: &[u8]) -> PacketHead
    requires { 28 ≤ length octets.now }
    ensures { result ≡ enhanced_head order octets.now interface }
{
    let high = u64::from(number(order, 12, octets));
    let low = u64::from(number(order, 16, octets));
    PacketHead {
        original: number(order, 24, octets),
        nanos: nanos_of(high * 0x1_0000_0000 + low, interface.ticks),
        is_ethernet: interface.is_ethernet,
        is_untimed: false,
    }
}

/// A simple packet.
pub fn read_simple(
    order: Order,
    interfaces: &[Interface],
    last: u64,
    octets: &[u8],
) -> Result<Block, CaptureFault>
    requires { 8 ≤ length octets.now }
    ensures value { result ≡ simple_in order interfaces.now last octets.now }
    ensures there { IfOk result (λ b. (8 ≤ b.before) × (b.before ≤ length octets.now)) }
    ensures cut { result ≡ Err faults.Cut → length octets.now < 28 }
{
    if octets.len() < 12 {
        return Err(CaptureFault::Cut);
    }
    let Some(interface) = interface_at(interfaces, 0) else {
        return Err(CaptureFault::Interface);
    };
    let original = number(order, 8, octets);
    let head = PacketHead {
        original,
        nanos: last,
        is_ethernet: interface.is_ethernet,
        is_untimed: true,
    };
    let kept = kept_under(interface.snap, original);
    packet_of(number(order, 4, octets), 12, kept, What::Packet(head))
}

/// A packet of which so many octets were kept, which stand behind so many others.
fn packet_of(total: u32, before: u32, kept: u32, what: What) -> Result<Block, CaptureFault>
    requires { before ≤ 28 }
    ensures value { result ≡ packet_by total before kept what }
    ensures before { IfOk result (λ b. b.before ≡ before) }
    ensures uncut { result ≡ Err faults.Cut → ⊥ }
{
    if kept > KEPT_MAX {
        return Err(CaptureFault::Length);
    }
    if total < before + padded(kept) + 4 {
        return Err(CaptureFault::Block);
    }
    Ok(Block {
        before,
        kept,
        behind: total - 4 - before - kept,
        what,
    })
}

/// So many octets with those that fill them up to a multiple of four.
fn padded(count: u32) -> u32
    requires { count ≤ 262144 }
    ensures value { result ≡ padded count }
    ensures enough { count ≤ result }
    ensures few { result ≤ count + 3 }
{
    (count + 3) / 4 * 4
}

/// How many octets are kept of a packet under a snap length.
fn kept_under(snap: u32, original: u32) -> u32
    ensures { result ≡ kept_under snap original }
{
    if snap == 0 {
        original
    } else {
        original.min(snap)
    }
}

/// The time of so many ticks, in nanoseconds, by a clock that has so many a second.
fn nanos_of(ticks: u64, second: u64) -> u64
    ensures { result ≡ nanos_of ticks second }
{
    let nanos = u128::from(ticks) * 1_000_000_000;
    let nanos = nanos.checked_div(u128::from(second)).unwrap_or(0);
    nanos.min(u128::from(u64::MAX)) as u64
}
