//! What is known of a file before its next block.

ghost use Rattle.std.specs.Prelude.{◌≡◌, ◌<◌, Err, ◌≤◌, IfOk, length};
ghost use Rattle.capture_packets.specs.declared.fault.CaptureFault.TheVariants as faults;
ghost use Rattle.capture_packets.specs.Packets.{context};
ghost use Rattle.text_lines.specs.declared.reading.End.TheVariants as ends;
ghost use Rattle.capture_packets.specs.Captures.{blank, closing, framed, is_closed, most_fields, order_in, size};
ghost use Rattle.capture_packets.specs.inside.Taking.{Adds, Closes, Finishes};

use crate::block::{Block, What, read_block};
use crate::fault::{CaptureFault, FileEnd};
use crate::numbers::number;
use crate::options::read_ticks;
use crate::packet::Packet;
use crate::record::read_record;
use capture_file::{HEADER_LEN, Order};
use std::alloc::Global;
use text_lines::End;

/// Of how many nanoseconds a part of a second is in a classic file.
#[derive(Clone, Copy, Debug, PartialEq, Eq)]
pub enum Parts {
    Micros,
    Nanos,
}

/// How a file is laid out.
#[derive(Clone, Copy, Debug, PartialEq, Eq)]
pub enum Layout {
    /// As records of the classic format. A time has parts of a second beside the seconds.
    Records(Parts),
    /// As blocks of pcapng.
    Blocks,
}

/// An interface of a section.
#[derive(Clone, Copy, Debug, PartialEq, Eq)]
pub struct Interface {
    /// Whether its link is Ethernet.
    pub is_ethernet: bool,
    /// At most so many octets are kept of a packet; 0 sets no limit.
    pub snap: u32,
    /// How many ticks its clock has a second.
    pub ticks: u64,
}

/// What is known of a file before its next record or block.
#[derive(Drop)]
pub struct State {
    pub layout: Layout,
    /// The order of octets of the file, or of the section.
    pub order: Order,
    /// The interfaces of the section.
    pub interfaces: Vec<Interface>,
    /// The time of the last packet, in nanoseconds, or 0.
    pub last: u64,
}

/// What was read of a file.
#[derive(Clone, Copy, Debug, PartialEq, Eq)]
pub enum Progress {
    /// Its end.
    End,
    /// A packet.
    Packet,
    /// A block without one.
    Other,
}

impl State {
    /// A file of blocks before its first.
    pub fn blank(alloc: Global) -> State
        ensures { context result ≡ blank }
    {
        State {
            layout: Layout::Blocks,
            order: Order::Big,
            interfaces: Vec::new(alloc),
            last: 0,
        }
    }

    /// The record or the block that octets begin with, by its fields, or the first refusal.
    pub fn frame(&self, octets: &[u8]) -> Result<Block, CaptureFault>
        ensures value { result ≡ framed (context self.now) self.now.layout octets.now }
        ensures there { IfOk result (λ b. (8 ≤ b.before) × (b.before ≤ length octets.now)) }
        ensures cut { result ≡ Err faults.Cut → length octets.now < most_fields self.now.layout }
    {
        match self.layout {
            Layout::Records(parts) => read_record(self.order, parts, octets),
            Layout::Blocks => read_block(self.order, &self.interfaces, self.last, octets),
        }
    }

    /// Keeps the octets of a record or a block that are to be kept, if all are there and its totals
    /// agree. Those that were taken are those to be kept, and those that close it.
    pub fn close(&self, block: &Block, octets: &mut Vec<u8>) -> Result<(), CaptureFault>
        ensures { Closes self.now.layout self.now.order block.now octets.old.items
            octets.new.items result }
    {
        let kept = block.kept as usize;
        if octets.len() < kept + closing(self.layout) {
            return Err(CaptureFault::Cut);
        }
        if !is_closed(self.layout, self.order, block, &octets[kept..]) {
            return Err(CaptureFault::Block);
        }
        octets.truncate(kept);
        Ok(())
    }

    /// Does what a whole block does that begins at this octet, of which the packet has the octets that
    /// are kept.
    pub fn finish(&mut self, at: u32, what: What, packet: &mut Packet) -> Result<Progress, FileEnd>
        ensures finishes { Finishes (context self.old) what packet.old.octets.items at packet.new
            (context self.new) result }
        ensures octets { packet.new.octets ≡ packet.old.octets }
        ensures failed { result ≡ Err ends.ReadFault → ⊥ }
    {
        match what {
            What::Section(order) => {
                self.order = order;
                self.interfaces.clear();
                Ok(Progress::Other)
            }
            What::Interface { is_ethernet, snap } => {
                self.add_interface(at, is_ethernet, snap, &packet.octets)
            }
            What::Packet(head) => {
                packet.head = head;
                self.last = head.nanos;
                Ok(Progress::Packet)
            }
            What::Other => Ok(Progress::Other),
        }
    }

    /// Adds an interface with these options.
    fn add_interface(
        &mut self,
        at: u32,
        is_ethernet: bool,
        snap: u32,
        options: &[u8],
    ) -> Result<Progress, FileEnd>
        ensures adds { Adds (context self.old) is_ethernet snap options.now at (context self.new)
            result }
        ensures failed { result ≡ Err ends.ReadFault → ⊥ }
    {
        let Some(ticks) = read_ticks(self.order, options) else {
            let why = CaptureFault::Block;
            return Err(End::Refused((at, why)));
        };
        let interface = Interface {
            is_ethernet,
            snap,
            ticks,
        };
        let Ok(()) = self.interfaces.push(interface) else {
            return Err(End::Memory);
        };
        Ok(Progress::Other)
    }
}

/// All fields of a record or a block stand in so many octets.
pub fn most_fields(layout: Layout) -> usize
    ensures value { result ≡ most_fields layout }
    ensures some { 0 < result }
    ensures few { result ≤ 28 }
{
    match layout {
        Layout::Records(_) => HEADER_LEN,
        Layout::Blocks => 28,
    }
}

/// How many octets close a record or a block: the total of a block.
pub fn closing(layout: Layout) -> usize
    ensures value { result ≡ closing layout }
    ensures few { result ≤ 4 }
{
    match layout {
        Layout::Records(_) => 0,
        Layout::Blocks => 4,
    }
}

/// Whether the octets that close a block tell its total.
fn is_closed(layout: Layout, order: Order, block: &Block, end: &[u8]) -> bool
    requires { closing layout ≤ length end.now }
    ensures { result ≡ is_closed layout order block.now end.now }
{
    match layout {
        Layout::Records(_) => true,
        Layout::Blocks => {
            let order = order_in(order, block.what);
            u64::from(number(order, 0, end)) == size(layout, block)
        }
    }
}

/// The order of octets in a block: that of a section is its own.
fn order_in(order: Order, what: What) -> Order
    ensures { result ≡ order_in order what }
{
    match what {
        What::Section(own) => own,
        _ => order,
    }
}

/// How many octets a record or a block has.
pub fn size(layout: Layout, block: &Block) -> u64
    ensures { result ≡ size layout block.now }
{
    let end = closing(layout) as u64;
    u64::from(block.before) + (u64::from(block.kept) + (u64::from(block.behind) + end))
}
