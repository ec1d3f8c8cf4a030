//! The packets of a file, one after the other.

ghost use Rattle.std.specs.Prelude.{◌≡◌, ◌≢◌, ◌<◌, ◌≤◌, ◌+◌, ◌++◌, ◌-◌, ◌^◌, ℕ, List, Err, IfOk, IfSome, None, Ok, OnOk, Some, if◌then◌else◌, length, take, true};
ghost use Rattle.lan_base.specs.Faults.{Rose};
ghost use Rattle.octet_supply.specs.Supplying.{Stands};
ghost use Rattle.text_lines.specs.declared.reading.End.TheVariants as ends;
ghost use Rattle.capture_packets.specs.declared.state.Progress.TheVariants as progress;
ghost use Rattle.capture_packets.specs.Packets.{Seen, context};
ghost use Rattle.capture_packets.specs.Captures.{Told, begun, blank, blocks_head, head_in};
ghost use Rattle.capture_packets.specs.Reading.{Opens, ReadsNext, TellsOn};
ghost use Rattle.capture_packets.specs.inside.Taking.{BeginsBlocks, BeginsRecords, Frames, ReadsHead, StepsOn, begun_by, judged, judged_head, no_packet};

use crate::block::Block;
use crate::fault::{CaptureFault, FileEnd};
use crate::head::{Head, read_head};
use crate::packet::Packet;
use crate::state::{Layout, Progress, State, closing, most_fields, size};
use crate::taking::{look, take_block};
use capture_file::HEAD_LEN;
use lan_base::Source;
use octet_supply::Supply;
use std::alloc::Global;
use text_lines::End;

/// Reads the packets of a file, whose head was read.
#[derive(Drop)]
pub struct PacketReader {
    supply: Supply,
    /// How many octets were given out before the file's first.
    start: u32,
    state: State,
}

impl PacketReader {
    /// Reads the head of a file, which in pcapng is its first section, behind what the supply has given
    /// out before.
    pub fn open<S: Source>(
        alloc: Global,
        supply: Supply,
        source: &mut S,
    ) -> Result<PacketReader, FileEnd>
        ensures opens { (limit : ℕ) (text given file : List ℕ)
            → Stands limit text given supply (S.left source.old)
            → take limit text ≡ given ++ file
            → Opens limit text given file (S.left source.new) result }
        ensures failed { result ≡ Err ends.ReadFault
            → Rose (S.faults source.old) (S.faults source.new) }
        ensures counts { S.faults source.old ≤ S.faults source.new }
    {
        let mut reader = PacketReader {
            start: supply.given(),
            supply,
            state: State::blank(alloc),
        };
        let head = reader.head(source)?;
        reader.begin(alloc, head, source)?;
        Ok(reader)
    }

    /// Reads the next packet in place of the one that is there, if there is one. Behind an error
    /// nothing is said of the packet, nor of a further call.
    pub fn read<S: Source>(&mut self, source: &mut S, packet: &mut Packet) -> Result<bool, FileEnd>
        ensures reads { (limit : ℕ) (text : List ℕ) (packets : List Seen) (t : Told)
            → TellsOn limit text self.old (S.left source.old) packets t
            → ReadsNext limit text packets t packet.new self.new (S.left source.new) result }
        ensures start { self.new.start ≡ self.old.start }
        ensures given { IfOk result (λ has. has ≡ true
            → self.old.supply.given < self.new.supply.given) }
        ensures behind { IfOk result (λ has. has ≡ true → self.new.supply.given < 2 ^ 32) }
        ensures before { self.old.supply.given < 2 ^ 32 }
        ensures failed { result ≡ Err ends.ReadFault
            → Rose (S.faults source.old) (S.faults source.new) }
        ensures counts { S.faults source.old ≤ S.faults source.new }
    {
        loop {
            match self.step(source, packet)? {
                Progress::End => return Ok(false),
                Progress::Packet => return Ok(true),
                Progress::Other => {}
            }
        }
    }

    /// Reads the next record or block.
    fn step<S: Source>(&mut self, source: &mut S, packet: &mut Packet) -> Result<Progress, FileEnd>
        ensures steps { (limit : ℕ) (text given behind : List ℕ)
            → Stands limit text given self.old.supply (S.left source.old)
            → take limit text ≡ given ++ behind
            → StepsOn limit text given behind (context self.old.state)
            (length given - self.old.start) packet.new (context self.new.state) self.new.supply
            (S.left source.new) result }
        ensures start { self.new.start ≡ self.old.start }
        ensures given { IfOk result (λ p. p ≢ progress.End
            → self.old.supply.given < self.new.supply.given) }
        ensures behind { IfOk result (λ p. p ≢ progress.End → self.new.supply.given < 2 ^ 32) }
        ensures before { self.old.supply.given < 2 ^ 32 }
        ensures failed { result ≡ Err ends.ReadFault
            → Rose (S.faults source.old) (S.faults source.new) }
        ensures counts { S.faults source.old ≤ S.faults source.new }
    {
        let given = self.supply.given();
        let at = given.saturating_sub(self.start);
        let Some(block) = self.frame(at, source)? else {
            return Ok(Progress::End);
        };
        let closing = closing(self.state.layout);
        take_block(
            &mut self.supply,
            &block,
            closing,
            source,
            &mut packet.octets,
        )?;
        let taken = self.supply.given().saturating_sub(given);
        if u64::from(taken) < size(self.state.layout, &block) {
            let why = CaptureFault::Cut;
            return Err(End::Refused((at, why)));
        }
        if let Err(why) = self.state.close(&block, &mut packet.octets) {
            return Err(End::Refused((at, why)));
        }
        self.state.finish(at, block.what, packet)
    }

    /// The record or the block that begins at this octet, by its fields, if there is one.
    fn frame<S: Source>(&mut self, at: u32, source: &mut S) -> Result<Option<Block>, FileEnd>
        ensures frames { (limit : ℕ) (text given behind : List ℕ)
            → Stands limit text given self.old.supply (S.left source.old)
            → take limit text ≡ given ++ behind
            → Frames limit text given behind (context self.old.state) at self.new.supply
            (S.left source.new) result }
        ensures some { IfOk result (λ found. IfSome found (λ block. 8 ≤ block.before)) }
        ensures state { self.new.state ≡ self.old.state }
        ensures start { self.new.start ≡ self.old.start }
        ensures given { OnOk result (self.new.supply.given ≡ self.old.supply.given) }
        ensures failed { result ≡ Err ends.ReadFault
            → Rose (S.faults source.old) (S.faults source.new) }
        ensures counts { S.faults source.old ≤ S.faults source.new }
    {
        let most = most_fields(self.state.layout);
        let is_past = look(&mut self.supply, most, source)?;
        let held = self.supply.held();
        let octets = &held[..held.len().min(most)];
        if octets.is_empty() {
            return no_block(is_past);
        }
        judged(at, is_past, self.state.frame(octets))
    }

    /// What the file is, by its head.
    fn head<S: Source>(&mut self, source: &mut S) -> Result<Head, FileEnd>
        ensures reads { (limit : ℕ) (text given file : List ℕ)
            → Stands limit text given self.old.supply (S.left source.old)
            → take limit text ≡ given ++ file
            → ReadsHead limit text given file self.new.supply (S.left source.new) result }
        ensures state { self.new.state ≡ self.old.state }
        ensures start { self.new.start ≡ self.old.start }
        ensures failed { result ≡ Err ends.ReadFault
            → Rose (S.faults source.old) (S.faults source.new) }
        ensures counts { S.faults source.old ≤ S.faults source.new }
    {
        let is_past = look(&mut self.supply, HEAD_LEN, source)?;
        let held = self.supply.held();
        judged_head(is_past, read_head(&held[..held.len().min(HEAD_LEN)]))
    }

    /// Goes on behind the head of a classic file, or behind the first section.
    fn begin<S: Source>(&mut self, alloc: Global, head: Head, source: &mut S) -> Result<(), FileEnd>
        ensures begins { (limit : ℕ) (text given file : List ℕ)
            → Stands limit text given self.old.supply (S.left source.old)
            → take limit text ≡ given ++ file
            → context self.old.state ≡ blank → self.old.start ≡ length given
            → head_in (take 24 file) ≡ Ok head
            → Opens limit text given file (S.left source.new) (begun_by self.new result) }
        ensures failed { result ≡ Err ends.ReadFault
            → Rose (S.faults source.old) (S.faults source.new) }
        ensures counts { S.faults source.old ≤ S.faults source.new }
    {
        match head.layout {
            Layout::Records(_) => self.begin_records(head, source),
            Layout::Blocks => self.begin_blocks(alloc, source),
        }
    }

    /// Passes over the head of a classic file.
    fn begin_records<S: Source>(&mut self, head: Head, source: &mut S) -> Result<(), FileEnd>
        ensures begins { (limit : ℕ) (text given file : List ℕ)
            → Stands limit text given self.old.supply (S.left source.old)
            → take limit text ≡ given ++ file
            → 24 ≤ length file
            → BeginsRecords limit text given file self.new.supply (S.left source.new) result }
        ensures state { context self.old.state ≡ blank → context self.new.state ≡ begun head }
        ensures start { self.new.start ≡ self.old.start }
        ensures failed { result ≡ Err ends.ReadFault
            → Rose (S.faults source.old) (S.faults source.new) }
        ensures counts { S.faults source.old ≤ S.faults source.new }
    {
        self.state.layout = head.layout;
        self.state.order = head.order;
        self.supply.pass(HEAD_LEN, source)?;
        Ok(())
    }

    /// Reads the first section.
    fn begin_blocks<S: Source>(&mut self, alloc: Global, source: &mut S) -> Result<(), FileEnd>
        ensures begins { (limit : ℕ) (text given file : List ℕ)
            → Stands limit text given self.old.supply (S.left source.old)
            → take limit text ≡ given ++ file
            → context self.old.state ≡ blank → self.old.start ≡ length given
            → head_in (take 24 file) ≡ Ok blocks_head
            → BeginsBlocks limit text given file (context self.new.state) self.new.supply
            (S.left source.new) result }
        ensures start { self.new.start ≡ self.old.start }
        ensures failed { result ≡ Err ends.ReadFault
            → Rose (S.faults source.old) (S.faults source.new) }
        ensures counts { S.faults source.old ≤ S.faults source.new }
    {
        let mut packet = Packet::new(alloc);
        let progress = self.step(source, &mut packet)?;
        no_packet(progress)
    }
}

/// The first block is a section, and has no packet.
fn no_packet(progress: Progress) -> Result<(), FileEnd>
    ensures { result ≡ no_packet progress }
{
    match progress {
        Progress::Other => Ok(()),
        Progress::Packet | Progress::End => Err(End::Refused((0, CaptureFault::Magic))),
    }
}

/// What a file is, where the limit may cut what follows.
fn judged_head(is_past: bool, head: Result<Head, CaptureFault>) -> Result<Head, FileEnd>
    ensures { result ≡ judged_head is_past head }
{
    match head {
        Ok(head) => Ok(head),
        Err(CaptureFault::Cut) if is_past => Err(End::Limit),
        Err(why) => Err(End::Refused((0, why))),
    }
}

/// Nothing more is there: the end, or what the limit cuts.
fn no_block(is_past: bool) -> Result<Option<Block>, FileEnd>
    ensures { result ≡ (if is_past then Err ends.Limit else Ok None) }
{
    if is_past { Err(End::Limit) } else { Ok(None) }
}

/// The fields of a record or a block that begins at this octet, where the limit may cut what follows.
fn judged(
    at: u32,
    is_past: bool,
    frame: Result<Block, CaptureFault>,
) -> Result<Option<Block>, FileEnd>
    ensures { result ≡ judged at is_past frame }
{
    match frame {
        Ok(block) => Ok(Some(block)),
        Err(CaptureFault::Cut) if is_past => Err(End::Limit),
        Err(why) => Err(End::Refused((at, why))),
    }
}
