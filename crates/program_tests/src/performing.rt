//! A trace, or another text, is performed through the top call.

use lan_base::{MemorySink, MemorySource, Octets};
use rollover_program::{AnyGate, Status, rollover};
use std::alloc::Global;
use std::process::Abort;
use std::thread::Threads;

/// The worked group, and its stations.
pub const GROUP: &str = "group 000102030405060708090a0b0c0d0e0f 01020304\n";

pub const FIRST: &str = "station A 02000000000a0001 16\n";

pub const SECOND: &str = "station B 02000000000b0001 32\n";

pub const THIRD: &str = "station C 02000000000c0001 64\n";

/// Six flow rounds, in which two stations come to their first key.
pub const SIX_ROUNDS: &str = "flow 6\n";

/// A source and a sink: how many octets they take a call, and which call of theirs fails, 0 for none.
#[derive(Clone, Copy)]
pub struct Outside {
    pub piece: usize,
    pub failing_read: u64,
    pub failing_write: u64,
}

/// No call fails.
pub const STEADY: Outside = Outside {
    piece: 64,
    failing_read: 0,
    failing_write: 0,
};

/// What a call left: its status, and what the sink holds.
#[derive(Drop)]
pub struct Left {
    pub status: Status,
    pub held: Vec<u8>,
}

/// The top call with this word and this text, at a gate.
pub fn perform<R: Threads + Abort + Sync>(
    rt: &R,
    alloc: Global,
    word: &str,
    text: &[u8],
    outside: Outside,
    gate: &AnyGate,
) -> Left {
    let mut words = Vec::new(alloc);
    let word = String::from_str(alloc, word).expect(rt, "memory");
    words.push(word).expect(rt, "memory");
    let mut source = source(rt, alloc, text, outside);
    let mut sink = sink(rt, alloc, outside);
    let status = rollover(rt, alloc, &words, &mut source, &mut sink, gate);
    let held = Vec::from_slice(alloc, sink.held()).expect(rt, "memory");
    Left { status, held }
}

/// A source of this text.
fn source(rt: &impl Abort, alloc: Global, text: &[u8], outside: Outside) -> MemorySource {
    let fails = Vec::from_slice(alloc, &[outside.failing_read]).expect(rt, "memory");
    let octets = Octets::from_slice(alloc, text).expect(rt, "memory");
    MemorySource::new(octets, outside.piece.max(1), fails)
}

/// A sink that holds nothing.
fn sink(rt: &impl Abort, alloc: Global, outside: Outside) -> MemorySink {
    let fails = Vec::from_slice(alloc, &[outside.failing_write]).expect(rt, "memory");
    MemorySink::new(alloc, outside.piece.max(1), fails)
}

/// Texts, one after the other.
pub fn joined(rt: &impl Abort, alloc: Global, parts: &[&str]) -> Vec<u8> {
    let mut all = Vec::new(alloc);
    for part in parts {
        all.extend_from_slice(part.as_bytes()).expect(rt, "memory");
    }
    all
}
