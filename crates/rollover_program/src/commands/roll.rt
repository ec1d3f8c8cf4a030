//! `roll`: a trace of two groups is performed.

ghost use Rattle.std.specs.Prelude.{◌≢◌, ℕ};
ghost use Rattle.rollover_program.specs.declared.status.Status.TheVariants as statuses;
ghost use Rattle.rollover_program.specs.declared.words.Order.TheVariants as orders;
ghost use Rattle.rollover_program.specs.Outside.{outside};
ghost use Rattle.rollover_program.specs.Carried.{IsCarriedOut};
ghost use Rattle.rollover_program.specs.Turned.{ShowsInTurn};

use crate::laws::law_tidy_worlds_of_two_groups_are_promised;
use crate::status::{Status, status_of_replay};
use lan_base::{Sink, Source};
use replay::twin::replay_two;
use std::alloc::Global;

/// Performs a trace of two groups, for its transcript.
pub fn roll<S: Source, K: Sink>(alloc: Global, source: &mut S, sink: &mut K) -> Status
    ensures carried { IsCarriedOut orders.Roll
        (outside S.Source K.Sink source.old source.new sink.old sink.new) result }
    ensures turned { ShowsInTurn S.Gave orders.Roll source.old source.new
        (outside S.Source K.Sink source.old source.new sink.old sink.new) result }
    ensures unforged { (line : ℕ) → result ≢ statuses.Forged line }
{
    law_tidy_worlds_of_two_groups_are_promised();
    status_of_replay(replay_two(alloc, source, sink))
}
