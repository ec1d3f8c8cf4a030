//! Facts are recorded one after the other.

ghost use Rattle.std.specs.Prelude.{◌≡◌, ◌≤◌, ℕ, List, [], Err, OnErr, length};
ghost use Rattle.lan_base.specs.Faults.{Rose};
ghost use Rattle.lan_core.specs.declared.fact.Fact.{Fact};
ghost use Rattle.transcript_capture.specs.declared.fault.RecordError.TheVariants as errors;
ghost use Rattle.transcript_capture.specs.Recording.{IsClockAfter, IsClockAt, Records};
ghost use Rattle.transcript_capture.specs.inside.Recorded.{Grew};
ghost use Rattle.transcript_capture.specs.inside.Taking.{Writes};

use crate::clock::Clock;
use crate::fault::RecordError;
use capture_file::{WRITTEN_MAX, packet};
use lan_base::{Sink, Unwritten, write_all};
use lan_core::Fact;
use std::alloc::Global;
use std::marker::Model;

/// Records the frames of facts, which come one after the other. Contracts see the clock.
#[derive(Drop)]
pub struct Recording {
    clock: Clock,
    /// The record of one frame.
    record: Vec<u8>,
}

impl Model for Recording {
    ghost use Rattle.transcript_capture.specs.declared.clock.Clock.{Clock};

    ghost Value = { Clock };

    ghost view = { λ r. r.clock };
}

impl Recording {
    /// No fact was recorded. No memory is taken.
    pub fn new(alloc: Global) -> Recording
        ensures { IsClockAfter [] result }
    {
        Recording {
            clock: Clock::new(),
            record: Vec::new(alloc),
        }
    }

    /// Takes the next fact: the record of its frame, if it has one, is written with the time.
    pub fn take<K: Sink>(&mut self, fact: &Fact, sink: &mut K) -> Result<(), RecordError>
        ensures records { (earlier : List Fact) → IsClockAfter earlier self.old
            → Records earlier fact.now self.old self.new (K.held sink.old) (K.held sink.new) result }
        ensures failed { result ≡ Err errors.Failed → Rose (K.faults sink.old) (K.faults sink.new) }
        ensures untouched { result ≡ Err errors.TooLong → sink.new ≡ sink.old }
        ensures grew { Grew K.held K.faults sink.old sink.new }
    {
        match fact {
            Fact::Framed { octets, .. } => self.write(octets.as_slice(), sink),
            _ => {
                self.clock.hear(fact);
                Ok(())
            }
        }
    }

    /// Writes the record of a frame that is seen now.
    fn write<K: Sink>(&mut self, octets: &[u8], sink: &mut K) -> Result<(), RecordError>
        ensures writes { (n : ℕ) → IsClockAt n self.old
            → Writes n octets.now (K.held sink.old) (K.held sink.new) result }
        ensures kept { self.new ≡ self.old }
        ensures failed { result ≡ Err errors.Failed → Rose (K.faults sink.old) (K.faults sink.new) }
        ensures untouched { result ≡ Err errors.TooLong → sink.new ≡ sink.old }
        ensures grew { Grew K.held K.faults sink.old sink.new }
    {
        if octets.len() > WRITTEN_MAX as usize {
            return Err(RecordError::TooLong);
        }
        self.record.clear();
        packet(
            self.clock.seconds,
            self.clock.micros(),
            octets,
            &mut self.record,
        )?;
        match write_all(sink, &self.record) {
            Ok(()) => Ok(()),
            Err(Unwritten::Failed) => Err(RecordError::Failed),
            Err(Unwritten::Memory) => Err(RecordError::Memory),
        }
    }
}
