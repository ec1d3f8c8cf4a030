//! Sources and sinks over std's readers and writers.

ghost use Rattle.std.specs.Prelude.{◌≡◌, ◌<◌, ◌≤◌, length, take, is_err, is_some, refl, IfOk, OnErr, if◌then◌else◌};
ghost use Rattle.std.specs.Io.KnownBytes.{ReadConsumes, WriteAppends};
ghost use Rattle.lan_base.specs.Faults.{one_more};
ghost use Rattle.lan_base.specs.Told.{before, after, IsUsedUp};

use crate::sink::{Sink, Unwritten};
use crate::source::{Failed, Source};
use std::io::{ErrorKind, Printer, Read, StdinLock, Write};

/// How often an interrupted read or write is tried before that is a fault.
const TRIES: u32 = 100;

/// A reader of which contracts know what it has left, always or never.
pub trait KnownRead: Read {
    ghost steady: { (a b : Self) → is_some (Self.remaining a) ≡ is_some (Self.remaining b) };
}

/// Octets in memory, which are known.
impl KnownRead for &[u8] {
    ghost steady = { λ _ _. refl };
}

/// Standard input, of which nothing is known.
impl KnownRead for StdinLock<'static> {
    ghost steady = { λ _ _. refl };
}

/// A writer of which contracts know what it holds, always or never.
pub trait KnownWrite: Write {
    ghost steady: { (a b : Self) → is_some (Self.contents a) ≡ is_some (Self.contents b) };
}

/// Octets in memory, which are known.
impl KnownWrite for Vec<u8> {
    ghost steady = { λ _ _. refl };
}

/// Room of a fixed length, of which nothing is known.
impl KnownWrite for &mut [u8] {
    ghost steady = { λ _ _. refl };
}

/// Standard output, of which nothing is known.
impl<P: Print> KnownWrite for Printer<'_, P> {
    ghost steady = { λ _ _. refl };
}

/// A source over a reader. It tells what the reader is known to have left, and counts the reader's
/// errors.
#[derive(Drop)]
pub struct StdSource<R: KnownRead + Drop> {
    reader: R,
    faults: u64,
}

impl<R: KnownRead + Drop> StdSource<R> {
    ghost use Rattle.lan_base.specs.Stream.{reader_of};

    /// A source that has not failed yet.
    pub fn new(reader: R) -> Self
        ensures reader { reader_of result ≡ reader }
        ensures left { ⟦<StdSource<R> as Source>⟧.left result ≡ R.remaining reader }
        ensures faults { ⟦<StdSource<R> as Source>⟧.faults result ≡ 0 }
    {
        StdSource { reader, faults: 0 }
    }
}

impl<R: KnownRead + Drop> Source for StdSource<R> {
    ghost use Rattle.lan_base.specs.Given.{GaveOf};

    ghost left = { λ s. R.remaining s.reader };

    ghost faults = { λ s. s.faults };

    ghost Gave = { λ old piece new. GaveOf (R.remaining old.reader) old.faults piece
        (R.remaining new.reader) new.faults };

    fn read(&mut self, into: &mut [u8]) -> Result<usize, Failed>
        requires { 0 < length into.old }
        ensures fits { IfOk result (λ n. n ≤ length into.new) }

        ensures moved { let left = ⟦<StdSource<R> as Source>⟧.left in
            IfOk result (λ n. left self.old ≡ before (take n into.new) (left self.new)) }
        ensures end { let left = ⟦<StdSource<R> as Source>⟧.left in
            IfOk result (λ n. n ≡ 0 → IsUsedUp (left self.old)) }
        ensures kept { let left = ⟦<StdSource<R> as Source>⟧.left in
            OnErr result (left self.new ≡ left self.old) }
        ensures counted { let faults = ⟦<StdSource<R> as Source>⟧.faults in
            faults self.new
            ≡ (if is_err result then one_more (faults self.old) else faults self.old) }
        ensures counts { let faults = ⟦<StdSource<R> as Source>⟧.faults in
            faults self.old ≤ faults self.new }
    {
        let result = read_through(&mut self.reader, into);
        if result.is_err() {
            self.faults = self.faults.saturating_add(1);
        }
        result
    }
}

/// Reads once, and again where that is interrupted.
fn read_through<R: Read>(reader: &mut R, into: &mut [u8]) -> Result<usize, Failed>
    ensures fits { IfOk result (λ n. n ≤ length into.new) }
    ensures passed { ReadConsumes (R.remaining reader.old) (R.remaining reader.new)
        result into.new }
{
    for _ in 0..TRIES {
        match reader.read(into) {
            Ok(count) => return Ok(count),
            Err(error) if error.kind() == ErrorKind::Interrupted => {}
            Err(_) => break,
        }
    }
    Err(Failed)
}

/// A sink over a writer. It tells what the writer is known to hold, and counts the writer's errors;
/// taking nothing is one.
#[derive(Drop)]
pub struct StdSink<W: KnownWrite + Drop> {
    writer: W,
    faults: u64,
}

impl<W: KnownWrite + Drop> StdSink<W> {
    ghost use Rattle.lan_base.specs.Stream.{writer_of};

    /// A sink that has not failed yet.
    pub fn new(writer: W) -> Self
        ensures writer { writer_of result ≡ writer }
        ensures held { ⟦<StdSink<W> as Sink>⟧.held result ≡ W.contents writer }
        ensures faults { ⟦<StdSink<W> as Sink>⟧.faults result ≡ 0 }
    {
        StdSink { writer, faults: 0 }
    }
}

impl<W: KnownWrite + Drop> Sink for StdSink<W> {
    ghost held = { λ s. W.contents s.writer };

    ghost faults = { λ s. s.faults };

    fn write(&mut self, piece: &[u8]) -> Result<usize, Unwritten>
        requires { 0 < length piece.now }
        ensures some { IfOk result (λ n. 0 < n) }
        ensures fits { IfOk result (λ n. n ≤ length piece.now) }

        ensures appended { let held = ⟦<StdSink<W> as Sink>⟧.held in
            IfOk result (λ n. held self.new ≡ after (held self.old) (take n piece.now)) }
        ensures kept { let held = ⟦<StdSink<W> as Sink>⟧.held in
            OnErr result (held self.new ≡ held self.old) }
        ensures counted { let faults = ⟦<StdSink<W> as Sink>⟧.faults in
            faults self.new
            ≡ (if is_err result then one_more (faults self.old) else faults self.old) }
        ensures counts { let faults = ⟦<StdSink<W> as Sink>⟧.faults in
            faults self.old ≤ faults self.new }
    {
        let result = write_through(&mut self.writer, piece);
        if result.is_err() {
            self.faults = self.faults.saturating_add(1);
        }
        result
    }
}

/// Writes once, and again where that is interrupted.
fn write_through<W: Write>(writer: &mut W, piece: &[u8]) -> Result<usize, Unwritten>
    ensures some { IfOk result (λ n. 0 < n) }
    ensures fits { IfOk result (λ n. n ≤ length piece.now) }
    ensures passed { WriteAppends (W.contents writer.old) (W.contents writer.new)
        result piece.now }
{
    for _ in 0..TRIES {
        match writer.write(piece) {
            Ok(0) => break,
            Ok(count) => return Ok(count),
            Err(error) if error.kind() == ErrorKind::Interrupted => {}
            Err(_) => break,
        }
    }
    Err(Unwritten::Failed)
}
