//! A whole trace of two groups is replayed.

ghost use Rattle.std.specs.Prelude.{◌≡◌, ℕ, Err};
ghost use Rattle.text_lines.specs.Reading.{sourced};
ghost use Rattle.text_lines.specs.declared.reading.End.TheVariants as ends;
ghost use Rattle.trace_acts.specs.declared.halt.Halt.TheVariants as halts;
ghost use Rattle.replay.specs.Sinks.{sunk};
ghost use Rattle.replay.specs.Runs.{IsReplayed};
ghost use Rattle.replay.specs.Turns.{PlaysInTurn};
ghost use Rattle.twin_schedule.specs.Sound.{IsTidy};
ghost use Rattle.replay.specs.twin.TwoGroups.{transcript, two_groups};

use crate::MAX_INPUT;
use crate::ended::ended;
use crate::twin::player::Player;
use crate::twin::transcribing::Transcript;
use lan_base::{Sink, Source};
use std::alloc::Global;
use text_lines::{End, read_lines};
use trace_acts::Halt;
use twin_schedule::{
    TwinReplay, law_acts_stop_for_their_own_reasons, law_groups_of_tidy_worlds_are_sound,
};

/// Reads a trace of two groups from a source to its end, performs each line as soon as it has ended,
/// and writes what each event shows in each group before the next one happens: each line behind the
/// number of its group.
pub fn replay_two<S: Source, K: Sink>(
    alloc: Global,
    source: &mut S,
    sink: &mut K,
) -> Result<(), End<Halt>>
    ensures replayed { IsReplayed two_groups IsTidy transcript
        (sourced (S.left source.old) (S.faults source.old))
        (sourced (S.left source.new) (S.faults source.new))
        (sunk (K.held sink.old) (K.faults sink.old))
        (sunk (K.held sink.new) (K.faults sink.new)) result }

    // Whatever the source tells, what ends in what one read gives is performed and shown before the
    // next one.
    ensures turned { PlaysInTurn S.Gave two_groups IsTidy transcript source.old source.new
        (sunk (K.held sink.old) (K.faults sink.old))
        (sunk (K.held sink.new) (K.faults sink.new)) result }
    ensures unforged { (line : ℕ) → result ≡ Err (ends.Refused (halts.Forged line)) → ⊥ }
{
    law_groups_of_tidy_worlds_are_sound();
    law_acts_stop_for_their_own_reasons();
    let mut player = Player {
        replay: TwinReplay::new(alloc),
        recorder: Transcript::new(alloc),
    };
    let read = read_lines(alloc, MAX_INPUT, source, &mut player, sink);
    ended(read, Ok(()))
}
