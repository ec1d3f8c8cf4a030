//! Who takes the lines of a trace of two groups: a replay, and whoever is told what it shows.

use text_lines::LineTaker;
use trace_acts::Halt;
use twin_schedule::{TwinRecorder, TwinReplay};

/// A replay with a recorder, which take lines together.
#[derive(Drop)]
pub struct Player<R> {
    pub replay: TwinReplay,
    pub recorder: R,
}

impl<K, R: TwinRecorder<K>> LineTaker<K> for Player<R> {
    ghost use Rattle.replay.specs.twin.inside.Playing.{DidLines};
    ghost use Rattle.twin_schedule.proofs.Public.{does-none, does-more, does-early};

    type Error = Halt;

    ghost Asks = { Unit {0} };

    ghost Did = { DidLines R.Took R.Broke (λ at. at.taker.replay) };

    fn line(&mut self, text: &[u8], outlet: &mut K) -> Result<(), Halt> {
        self.replay.text(text, &mut self.recorder, outlet)
    }

    ghost none = { λ a. does-none _ };

    ghost more = { λ a b c xs ys r d e. does-more _ _ _ xs ys r d e };

    ghost early = { λ a b xs ys halt d. does-early _ _ xs ys halt d };
}
