//! A source and a sink in memory.

ghost use Rattle.std.specs.Prelude.{◌≡◌, ◌+◌, ◌<◌, ◌↔◌, ◌++◌, [], Err, length, take, drop, min, IsErr, is_err, IsTrue, IfOk, OnErr, if◌then◌else◌};
ghost use Rattle.lan_base.specs.Faults.{one_more};
ghost use Rattle.lan_base.specs.InMemory.{is_listed, failures};

use crate::octets::Octets;
use crate::sink::{Sink, Unwritten, hold};
use crate::source::{Failed, Source};
use std::alloc::Global;
use std::marker::Model;

/// A source that gives its octets, at most `piece` a call, and fails the calls whose numbers, from
/// 1, are listed. Contracts see what is left, the piece, the failing calls and the count of calls.
#[derive(Drop)]
pub struct MemorySource {
    octets: Octets,
    given: usize,
    piece: usize,
    fails: Vec<u64>,
    calls: u64,
}

impl Model for MemorySource {
    ghost use Rattle.std.specs.Prelude.{◌<◌, ◌≤◌, length, drop};
    ghost use Rattle.lan_base.specs.InMemory.{SourceInMemory};

    ghost Value = { SourceInMemory };

    ghost view = { λ s. record {
      left = drop s.given s.octets;
      piece = s.piece;
      fails = s.fails.items;
      calls = s.calls;
    } };

    ghost invariant = { λ s. (s.given ≤ length s.octets) × (0 < s.piece) };
}

impl MemorySource {
    /// A source that has these octets left. The calls of the listed numbers will fail.
    pub fn new(octets: Octets, piece: usize, fails: Vec<u64>) -> Self
        requires { 0 < piece }
        ensures { result ≡ record { left = octets; piece = piece; fails = fails.items; calls = 0 } }
    {
        MemorySource {
            octets,
            given: 0,
            piece,
            fails,
            calls: 0,
        }
    }
}

impl Source for MemorySource {
    ghost use Rattle.std.specs.Prelude.{Some};
    ghost use Rattle.lan_base.specs.InMemory.{GaveInMemory};

    ghost left = { λ s. Some s.left };

    ghost faults = { λ s. failures s.fails s.calls };

    ghost Gave = { GaveInMemory };

    fn read(&mut self, into: &mut [u8]) -> Result<usize, Failed>
        requires { 0 < length into.old }
        ensures failing { IsErr result ↔ IsTrue (is_listed self.old.fails (self.old.calls + 1)) }
        ensures faults { failures self.new.fails self.new.calls
            ≡ failures self.old.fails self.old.calls + (if is_err result then 1 else 0) }
        ensures count { IfOk result
            (λ n. n ≡ min (length into.old) (min self.old.piece (length self.old.left))) }
        ensures end { IfOk result (λ n. n ≡ 0 → self.old.left ≡ []) }
        ensures moved { IfOk result (λ n. take n into.new ≡ take n self.old.left) }
        ensures after { IfOk result (λ n. self.new
            ≡ record self.old { left = drop n self.old.left; calls = one_more self.old.calls }) }
        ensures err { OnErr result
            (self.new ≡ record self.old { calls = one_more self.old.calls }) }
    {
        if is_failing(&mut self.calls, &self.fails) {
            return Err(Failed);
        }
        let left = &self.octets.as_slice()[self.given..];
        let count = into.len().min(self.piece).min(left.len());
        into[..count].copy_from_slice(&left[..count]);
        self.given += count;
        Ok(count)
    }
}

/// A sink that takes at most `piece` octets a call, and fails the calls whose numbers, from 1, are
/// listed. Contracts see what it holds, the piece, the failing calls and the count of calls.
#[derive(Drop)]
pub struct MemorySink {
    octets: Octets,
    piece: usize,
    fails: Vec<u64>,
    calls: u64,
}

impl Model for MemorySink {
    ghost use Rattle.std.specs.Prelude.{◌<◌};
    ghost use Rattle.lan_base.specs.InMemory.{SinkInMemory};

    ghost Value = { SinkInMemory };

    ghost view = { λ s. record {
      held = s.octets;
      piece = s.piece;
      fails = s.fails.items;
      calls = s.calls;
    } };

    ghost invariant = { λ s. 0 < s.piece };
}

impl MemorySink {
    /// An empty sink. The calls of the listed numbers will fail.
    pub fn new(alloc: Global, piece: usize, fails: Vec<u64>) -> Self
        requires { 0 < piece }
        ensures { result ≡ record { held = []; piece = piece; fails = fails.items; calls = 0 } }
    {
        MemorySink {
            octets: Octets::new(alloc),
            piece,
            fails,
            calls: 0,
        }
    }

    /// What was written so far.
    pub fn held(&self) -> &[u8]
        ensures { result.now ≡ self.now.held }
    {
        self.octets.as_slice()
    }
}

impl Sink for MemorySink {
    ghost use Rattle.std.specs.Prelude.{Some};

    ghost held = { λ s. Some s.held };

    ghost faults = { λ s. failures s.fails s.calls };

    fn write(&mut self, piece: &[u8]) -> Result<usize, Unwritten>
        requires { 0 < length piece.now }
        ensures failing { (result ≡ Err Unwritten.Failed)
            ↔ IsTrue (is_listed self.old.fails (self.old.calls + 1)) }
        ensures faults { failures self.new.fails self.new.calls
            ≡ failures self.old.fails self.old.calls
            + (if is_listed self.old.fails (self.old.calls + 1) then 1 else 0) }
        ensures count { IfOk result (λ n. n ≡ min (length piece.now) self.old.piece) }
        ensures some { IfOk result (λ n. 0 < n) }
        ensures after { IfOk result (λ n. self.new
            ≡ record self.old {
              held = self.old.held ++ take n piece.now;
              calls = one_more self.old.calls;
            }) }
        ensures err { OnErr result
            (self.new ≡ record self.old { calls = one_more self.old.calls }) }
    {
        if is_failing(&mut self.calls, &self.fails) {
            return Err(Unwritten::Failed);
        }
        let count = piece.len().min(self.piece);
        hold(&mut self.octets, &piece[..count])
    }
}

/// Counts a call, and answers whether it is listed to fail.
fn is_failing(calls: &mut u64, fails: &[u64]) -> bool
    ensures answer { IsTrue result ↔ IsTrue (is_listed fails.now (calls.old + 1)) }
    ensures counted { calls.new ≡ one_more calls.old }
    ensures faults { failures fails.now calls.new
        ≡ failures fails.now calls.old + (if result then 1 else 0) }
{
    let Some(call) = calls.checked_add(1) else {
        return false;
    };
    *calls = call;
    fails.contains(&call)
}
