//! Each packet of a file is told in one line.

ghost use Rattle.std.specs.Prelude.{◌≡◌, ◌<◌, ◌≤◌, ◌++◌, ℕ, List, Err, OnOk, OnErr, Some, take, length};
ghost use Rattle.lan_base.specs.Faults.{Rose};
ghost use Rattle.lan_base.specs.Told.{after};
ghost use Rattle.capture_file.specs.Describing.{described};
ghost use Rattle.text_lines.specs.declared.unfinished.Unfinished.TheVariants as ends;
ghost use Rattle.packet_lines.specs.Telling.{EndsTold};
ghost use Rattle.packet_lines.specs.inside.Reading.{Writes};

use crate::reader::PacketReader;
use capture_file::{CaptureFault, describe};
use lan_base::{Sink, Source, Unwritten, write_all};
use std::alloc::Global;
use text_lines::Unfinished;

/// Reads a file of captured packets from a source to its end, and writes the line of each packet
/// before the next one is read.
pub fn dissect<S: Source, K: Sink>(
    alloc: Global,
    source: &mut S,
    sink: &mut K,
) -> Result<(), Unfinished<CaptureFault>>
    ensures told { (file : List ℕ) → S.left source.old ≡ Some file
        → EndsTold file (S.left source.new) (K.held sink.old) (K.held sink.new) result }
    ensures read_fault { result ≡ Err ends.ReadFault
        → Rose (S.faults source.old) (S.faults source.new) }
    ensures write_fault { result ≡ Err ends.WriteFault
        → Rose (K.faults sink.old) (K.faults sink.new) }
    ensures reads { S.faults source.old ≤ S.faults source.new }
    ensures writes { K.faults sink.old ≤ K.faults sink.new }
{
    let mut reader = PacketReader::open(alloc, source)?;
    let mut packet = Vec::new(alloc);
    let mut line = Vec::new(alloc);
    let mut number = 0;
    while reader.read(source, &mut packet)? {
        number += 1;
        write_line(number, &packet, &mut line, sink)?;
    }
    Ok(())
}

/// Writes the line of a packet. The vector is working space.
fn write_line<K: Sink>(
    number: u32,
    packet: &[u8],
    line: &mut Vec<u8>,
    sink: &mut K,
) -> Result<(), Unfinished<CaptureFault>>
    ensures writes { Writes number packet.now (K.held sink.old) (K.held sink.new) result }
    ensures failed { result ≡ Err ends.WriteFault → Rose (K.faults sink.old) (K.faults sink.new) }
    ensures counts { K.faults sink.old ≤ K.faults sink.new }
{
    line.clear();
    describe(number, packet, line)?;
    match write_all(sink, line) {
        Ok(()) => Ok(()),
        Err(Unwritten::Failed) => Err(Unfinished::WriteFault),
        Err(Unwritten::Memory) => Err(Unfinished::Memory),
    }
}
