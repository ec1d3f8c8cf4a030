//! Who takes the lines of a trace: a replay, and whoever is told what it shows.

use crate::gate::AnyGate;
use lan_schedule::{Preparing, Replay};
use std::thread::Threads;
use text_lines::LineTaker;
use trace_acts::Halt;

/// A replay with a recorder, which take lines together, at a gate; its races start threads.
#[derive(Drop)]
pub struct Player<'g, T, R> {
    pub rt: &'g T,
    pub replay: Replay,
    pub recorder: R,
    pub gate: &'g AnyGate,
}

impl<T: Threads + Sync, K, R: Preparing<K>> LineTaker<K> for Player<'_, T, R> {
    ghost use Rattle.std.specs.Thread.{IsSync};
    ghost use Rattle.replay.specs.inside.Playing.{DidLines};
    ghost use Rattle.lan_schedule.proofs.Public.{does-none, does-more, does-early};

    type Error = Halt;

    ghost Asks = { IsSync T.row };

    ghost Did = { DidLines R.Took R.Broke (λ at. at.taker.replay) };

    fn line(&mut self, text: &[u8], outlet: &mut K) -> Result<(), Halt> {
        self.replay
            .text(self.rt, text, &mut self.recorder, outlet, self.gate)
    }

    ghost none = { λ a. does-none _ };

    ghost more = { λ a b c xs ys r d e. does-more _ _ _ xs ys r d e };

    ghost early = { λ a b xs ys halt d. does-early _ _ xs ys halt d };
}
