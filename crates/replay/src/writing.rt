//! A text is written to a sink.

ghost use Rattle.std.specs.Prelude.{[], ◌∷◌, MatchResult};
ghost use Rattle.replay.specs.Sinks.{Fails, Wrote, sunk};

use lan_base::{Sink, Unwritten, write_all};

/// Writes a text whole, or a part of it.
pub fn write<K: Sink>(text: &[u8], sink: &mut K) -> Result<(), Unwritten>
    ensures { MatchResult result
        (λ _. Wrote (text.now ∷ []) (sunk (K.held sink.old) (K.faults sink.old))
        (sunk (K.held sink.new) (K.faults sink.new)))
        (λ why. Fails (text.now ∷ []) (sunk (K.held sink.old) (K.faults sink.old))
        (sunk (K.held sink.new) (K.faults sink.new)) why) }
{
    write_all(sink, text)
}
