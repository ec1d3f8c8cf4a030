//! A whole trace is replayed.

ghost use Rattle.std.specs.Prelude.{◌≡◌, true, false};
ghost use Rattle.text_lines.specs.Reading.{sourced};
ghost use Rattle.replay.specs.Sinks.{Fails, Wrote, sunk};
ghost use Rattle.replay.specs.OneGroup.{IsSettled, one_group, shown_by};
ghost use Rattle.replay.specs.Runs.{IsReplayed};
ghost use Rattle.replay.specs.Turns.{PlaysInTurn};
ghost use Rattle.replay.specs.inside.Summing.{SumsUp};
ghost use Rattle.fact_tally.specs.Summary.{line_of};
ghost use Rattle.std.specs.Prelude.{[], ◌∷◌, MatchResult};

use crate::ended::{answered, ended};
use crate::gate::AnyGate;
use crate::player::Player;
use crate::transcribing::Transcript;
use crate::unrecorded::Unrecorded;
use crate::writing::write;
use fact_tally::Tally;
use lan_base::{Sink, Source, Unwritten};
use lan_schedule::{Replay, law_acts_stop_for_their_own_reasons, law_lines_leave_a_tidy_world};
use std::alloc::Global;
use std::thread::Threads;
use text_lines::{End, read_lines};
use trace_acts::Halt;

/// The greatest count of octets of an input.
pub const MAX_INPUT: usize = 4_194_304;

/// Reads a trace from a source to its end, and performs each line as soon as it has ended. Without
/// `summary` it writes what each event shows before the next one happens; with it, nothing before
/// the end, and then the line that says how many facts there were of each kind. A trace that ends
/// inside a race is refused at the line behind its last. The workers
/// of a race run on threads; the gate is passed at each of their steps, and after each move of a
/// station's current word.
pub fn replay<T: Threads + Sync, S: Source, K: Sink>(
    rt: &T,
    alloc: Global,
    source: &mut S,
    sink: &mut K,
    gate: &AnyGate,
    summary: bool,
) -> Result<(), End<Halt>>
    ensures replayed { IsReplayed one_group IsSettled (shown_by summary)
        (sourced (S.left source.old) (S.faults source.old))
        (sourced (S.left source.new) (S.faults source.new))
        (sunk (K.held sink.old) (K.faults sink.old))
        (sunk (K.held sink.new) (K.faults sink.new)) result }

    // Whatever the source tells, what ends in what one read gives is performed and shown before the
    // next one. A summary is written at the end.
    ensures turned { summary ≡ false → PlaysInTurn S.Gave one_group IsSettled (shown_by false)
        source.old source.new
        (sunk (K.held sink.old) (K.faults sink.old))
        (sunk (K.held sink.new) (K.faults sink.new)) result }
{
    if summary {
        summarize(rt, alloc, source, sink, gate)
    } else {
        transcribe(rt, alloc, source, sink, gate)
    }
}

/// Replays a trace for its transcript.
fn transcribe<T: Threads + Sync, S: Source, K: Sink>(
    rt: &T,
    alloc: Global,
    source: &mut S,
    sink: &mut K,
    gate: &AnyGate,
) -> Result<(), End<Halt>>
    ensures replayed { IsReplayed one_group IsSettled (shown_by false)
        (sourced (S.left source.old) (S.faults source.old))
        (sourced (S.left source.new) (S.faults source.new))
        (sunk (K.held sink.old) (K.faults sink.old))
        (sunk (K.held sink.new) (K.faults sink.new)) result }
    ensures turned { PlaysInTurn S.Gave one_group IsSettled (shown_by false)
        source.old source.new
        (sunk (K.held sink.old) (K.faults sink.old))
        (sunk (K.held sink.new) (K.faults sink.new)) result }
{
    law_lines_leave_a_tidy_world();
    law_acts_stop_for_their_own_reasons();
    let mut player = Player {
        rt,
        replay: Replay::new(alloc),
        recorder: Transcript::new(alloc),
        gate,
    };
    let read = read_lines(alloc, MAX_INPUT, source, &mut player, sink);
    let may = player.replay.close();
    ended(read, may)
}

/// Replays a trace for its summary.
fn summarize<T: Threads + Sync, S: Source, K: Sink>(
    rt: &T,
    alloc: Global,
    source: &mut S,
    sink: &mut K,
    gate: &AnyGate,
) -> Result<(), End<Halt>>
    ensures { IsReplayed one_group IsSettled (shown_by true)
        (sourced (S.left source.old) (S.faults source.old))
        (sourced (S.left source.new) (S.faults source.new))
        (sunk (K.held sink.old) (K.faults sink.old))
        (sunk (K.held sink.new) (K.faults sink.new)) result }
{
    law_lines_leave_a_tidy_world();
    law_acts_stop_for_their_own_reasons();
    let mut player = Player {
        rt,
        replay: Replay::new(alloc),
        recorder: Unrecorded,
        gate,
    };
    let read = read_lines(alloc, MAX_INPUT, source, &mut player, sink);
    let may = player.replay.close();
    sum_up(alloc, ended(read, may), player.replay.tally(), sink)
}

/// Writes the summary line of a run that ended well, and else nothing.
fn sum_up<K: Sink>(
    alloc: Global,
    ended: Result<(), End<Halt>>,
    tally: &Tally,
    sink: &mut K,
) -> Result<(), End<Halt>>
    ensures { SumsUp ended (line_of tally.now) (sunk (K.held sink.old) (K.faults sink.old))
        (sunk (K.held sink.new) (K.faults sink.new)) result }
{
    ended?;
    answered(write_line(alloc, tally, sink))
}

/// Writes the summary line.
fn write_line<K: Sink>(alloc: Global, tally: &Tally, sink: &mut K) -> Result<(), Unwritten>
    ensures { MatchResult result
        (λ _. Wrote (line_of tally.now ∷ []) (sunk (K.held sink.old) (K.faults sink.old))
        (sunk (K.held sink.new) (K.faults sink.new)))
        (λ why. Fails (line_of tally.now ∷ []) (sunk (K.held sink.old) (K.faults sink.old))
        (sunk (K.held sink.new) (K.faults sink.new)) why) }
{
    let line = tally.text(alloc)?;
    write(line.as_slice(), sink)
}
