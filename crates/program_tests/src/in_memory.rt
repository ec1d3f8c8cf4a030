//! What is proved of sources and sinks over std's readers and writers in memory.

ghost use Rattle.std.specs.Prelude.{◌≡◌, ◌++◌, Some, IfOk, OnOk};

use lan_base::{Octets, ReadEnd, Sink, StdSink, StdSource, Unwritten, read_all, write_all};
use std::alloc::Global;

/// Reads a text in memory through std's reader: what is read is the text.
pub fn read_whole(alloc: Global, text: &[u8]) -> Result<Octets, ReadEnd>
    ensures { IfOk result (λ octets. octets ≡ text.now) }
{
    read_all(alloc, &mut StdSource::new(text), text.len())
}

/// Writes octets through std's writer behind those of a vector, and answers the sink.
pub fn write_whole(into: Vec<u8>, octets: &[u8]) -> Result<StdSink<Vec<u8>>, Unwritten>
    ensures { IfOk result (λ sink. ⟦<StdSink<Vec<u8>> as Sink>⟧.held sink
        ≡ Some (into.items ++ octets.now)) }
{
    let mut sink = StdSink::new(into);
    write_all(&mut sink, octets)?;
    Ok(sink)
}
