//! The packets of a file, one after the other.

ghost use Rattle.std.specs.Prelude.{◌≡◌, ◌<◌, ◌≤◌, ◌+◌, ◌^◌, ℕ, List, [], Err, IfOk, OnOk, Some, length, true};
ghost use Rattle.lan_base.specs.Faults.{Rose};
ghost use Rattle.lan_base.specs.Ranges.{most_input};
ghost use Rattle.text_lines.specs.declared.reading.End.TheVariants as ends;
ghost use Rattle.packet_lines.specs.inside.Reading.{GivesCount, GivesOrder, Opens, ReadsNext, seen};
ghost use Rattle.octet_supply.specs.Supplying.{Stands};

use capture_file::{CaptureFault, HEAD_LEN, HEADER_LEN, Order, head, kept};
use lan_base::{INPUT_MAX, Source};
use octet_supply::Supply;
use std::alloc::Global;
use text_lines::End;

/// Why a file is not read to its end. Its head is refused, or the record that begins at this octet.
pub type FileEnd = End<(u32, CaptureFault)>;

/// Reads the packets of a file, whose head was read.
#[derive(Drop)]
pub struct PacketReader {
    supply: Supply,
    order: Order,
}

impl PacketReader {
    /// Reads the head of a file.
    pub fn open<S: Source>(alloc: Global, source: &mut S) -> Result<PacketReader, FileEnd>
        ensures opens { (text : List ℕ) → S.left source.old ≡ Some text
            → Opens text (S.left source.new) (seen result) }
        ensures failed { result ≡ Err ends.ReadFault
            → Rose (S.faults source.old) (S.faults source.new) }
        ensures counts { S.faults source.old ≤ S.faults source.new }
    {
        let mut supply = Supply::new(alloc, INPUT_MAX as u32);
        let mut octets = Vec::new(alloc);
        supply.take(HEAD_LEN, source, &mut octets)?;
        let order = order_of(&octets)?;
        Ok(PacketReader { supply, order })
    }

    /// Reads the octets of the next packet in place of what the vector has, if there is one.
    pub fn read<S: Source>(&mut self, source: &mut S, packet: &mut Vec<u8>) -> Result<bool, FileEnd>
        ensures reads { (text given : List ℕ)
            → Stands most_input text given self.old.supply (S.left source.old)
            → ReadsNext text given self.old.order packet.new.items self.new.supply
            (S.left source.new) result }
        ensures order { self.new.order ≡ self.old.order }
        ensures given { IfOk result (λ has. has ≡ true
            → self.old.supply.given + 16 ≤ self.new.supply.given) }
        ensures before { self.old.supply.given < 2 ^ 32 }
        ensures failed { result ≡ Err ends.ReadFault
            → Rose (S.faults source.old) (S.faults source.new) }
        ensures counts { S.faults source.old ≤ S.faults source.new }
    {
        let at = self.supply.given();
        packet.clear();
        self.supply.take(HEADER_LEN, source, packet)?;
        if packet.is_empty() {
            return Ok(false);
        }
        let count = count_of(self.order, at, packet)?;
        packet.clear();
        self.supply.take(count, source, packet)?;
        if packet.len() < count {
            return Err(End::Refused((at, CaptureFault::Cut)));
        }
        Ok(true)
    }
}

/// The order of octets that the head of a file tells.
fn order_of(octets: &[u8]) -> Result<Order, FileEnd>
    ensures { GivesOrder octets.now result }
{
    let Some(octets) = octets.first_chunk::<HEAD_LEN>() else {
        return Err(End::Refused((0, CaptureFault::Cut)));
    };
    match head(octets) {
        Ok(order) => Ok(order),
        Err(why) => Err(End::Refused((0, why))),
    }
}

/// How many octets of a packet the header of its record tells, which begins at this octet.
fn count_of(order: Order, at: u32, octets: &[u8]) -> Result<usize, FileEnd>
    ensures { GivesCount order at octets.now result }
{
    let Some(header) = octets.first_chunk::<HEADER_LEN>() else {
        return Err(End::Refused((at, CaptureFault::Cut)));
    };
    match kept(order, header) {
        Ok(count) => Ok(count as usize),
        Err(why) => Err(End::Refused((at, why))),
    }
}
