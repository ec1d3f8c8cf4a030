//! A source, a sink and a sink of nothing that never fail.

ghost use Rattle.std.specs.Prelude.{◌≡◌, ◌<◌, ◌≢◌, ◌++◌, [], Ok, Err, true, is_ok, length, take, drop, min, IfOk, OnErr, OnOk};

use crate::octets::Octets;
use crate::sink::{Sink, Unwritten, hold};
use crate::source::{Failed, Source};
use std::alloc::Global;
use std::marker::Model;

/// A source in memory that never fails. Contracts see the octets that are left.
#[derive(Drop)]
pub struct SteadySource {
    octets: Octets,
    given: usize,
}

impl Model for SteadySource {
    ghost use Rattle.std.specs.Prelude.{List, ℕ, ◌≤◌, length, drop};

    ghost Value = { List ℕ };

    ghost view = { λ s. drop s.given s.octets };

    ghost invariant = { λ s. s.given ≤ length s.octets };
}

impl SteadySource {
    /// A source that has these octets left.
    pub fn new(octets: Octets) -> Self
        ensures { result ≡ octets }
    {
        SteadySource { octets, given: 0 }
    }
}

impl Source for SteadySource {
    ghost use Rattle.std.specs.Prelude.{Some};
    ghost use Rattle.lan_base.specs.InMemory.{GaveSteadily};

    ghost left = { λ s. Some s };

    ghost faults = { λ _. 0 };

    ghost Gave = { GaveSteadily };

    fn read(&mut self, into: &mut [u8]) -> Result<usize, Failed>
        requires { 0 < length into.old }
        ensures steady { is_ok result ≡ true }
        ensures count { IfOk result (λ n. n ≡ min (length into.old) (length self.old)) }
        ensures moved { IfOk result (λ n. take n into.new ≡ take n self.old) }
        ensures after { IfOk result (λ n. self.new ≡ drop n self.old) }
    {
        let left = &self.octets.as_slice()[self.given..];
        let count = into.len().min(left.len());
        into[..count].copy_from_slice(&left[..count]);
        self.given += count;
        Ok(count)
    }
}

/// A sink in memory that never fails; memory may still be wanting. Contracts see what it holds.
#[derive(Drop)]
pub struct SteadySink {
    octets: Octets,
}

impl Model for SteadySink {
    ghost use Rattle.std.specs.Prelude.{List, ℕ};

    ghost Value = { List ℕ };

    ghost view = { λ s. s.octets };
}

impl SteadySink {
    /// An empty sink.
    pub fn new(alloc: Global) -> Self
        ensures { result ≡ [] }
    {
        SteadySink {
            octets: Octets::new(alloc),
        }
    }

    /// What was written so far.
    pub fn held(&self) -> &[u8]
        ensures { result.now ≡ self.now }
    {
        self.octets.as_slice()
    }
}

impl Sink for SteadySink {
    ghost use Rattle.std.specs.Prelude.{Some};

    ghost held = { λ s. Some s };

    ghost faults = { λ _. 0 };

    fn write(&mut self, piece: &[u8]) -> Result<usize, Unwritten>
        requires { 0 < length piece.now }
        ensures steady { result ≢ Err Unwritten.Failed }
        ensures count { IfOk result (λ n. n ≡ length piece.now) }
        ensures ok { OnOk result (self.new ≡ self.old ++ piece.now) }
        ensures err { OnErr result (self.new ≡ self.old) }
    {
        hold(&mut self.octets, piece)
    }
}

/// A sink that takes every piece whole and keeps nothing. It tells no octets and never fails.
#[derive(Drop)]
pub struct DropSink;

impl Sink for DropSink {
    ghost use Rattle.std.specs.Prelude.{None};

    ghost held = { λ _. None };

    ghost faults = { λ _. 0 };

    fn write(&mut self, piece: &[u8]) -> Result<usize, Unwritten>
        requires { 0 < length piece.now }
        ensures { result ≡ Ok (length piece.now) }
    {
        Ok(piece.len())
    }
}
