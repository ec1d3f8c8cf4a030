//! Records of the classic format.

ghost use Rattle.std.specs.Prelude.{◌≡◌, ◌<◌, Err, ◌≤◌, IfOk, length};
ghost use Rattle.capture_packets.specs.declared.fault.CaptureFault.TheVariants as faults;
ghost use Rattle.capture_packets.specs.Records.{record_in, unit};

use crate::block::{Block, What};
use crate::fault::CaptureFault;
use crate::numbers::number;
use crate::packet::PacketHead;
use crate::state::Parts;
use capture_file::{HEADER_LEN, KEPT_MAX, Order};

/// The record that octets begin with, by its header, or the first refusal.
pub fn read_record(order: Order, parts: Parts, octets: &[u8]) -> Result<Block, CaptureFault>
    ensures value { result ≡ record_in order parts octets.now }
    ensures there { IfOk result (λ b. (8 ≤ b.before) × (b.before ≤ length octets.now)) }
    ensures cut { result ≡ Err faults.Cut → length octets.now < 16 }
{
    if octets.len() < HEADER_LEN {
        return Err(CaptureFault::Cut);
    }
    let kept = number(order, 8, octets);
    if kept > KEPT_MAX {
        return Err(CaptureFault::Length);
    }
    let seconds = u64::from(number(order, 0, octets));
    let rest = u64::from(number(order, 4, octets)) * unit(parts);
    Ok(Block {
        before: 16,
        kept,
        behind: 0,
        what: What::Packet(PacketHead {
            original: number(order, 12, octets),
            nanos: seconds * 1_000_000_000 + rest,
            is_ethernet: true,
            is_untimed: false,
        }),
    })
}

/// How many nanoseconds a part of a second has.
fn unit(parts: Parts) -> u64
    ensures value { result ≡ unit parts }
    ensures few { result ≤ 1000 }
{
    match parts {
        Parts::Micros => 1000,
        Parts::Nanos => 1,
    }
}
