//! Control of a race: its lines are performed while the workers claim.

use crate::keeping::{Keeping, KeptEvents};
use crate::phase::Numbered;
use crate::stage::Stage;
use data_workers::Steering;
use packet_claims::Gate;
use std::mem::replace;
use trace_acts::Halt;

/// A group at work with the deeds of control, what these show, and how they end.
#[derive(Drop)]
pub struct Runner<'g, G> {
    pub stage: Stage,
    pub control: Vec<Numbered>,
    pub kept: KeptEvents,
    pub came: Result<(), Halt>,
    pub gate: &'g G,
}

impl<G: Gate> Steering for Runner<'_, G> {
    ghost use Rattle.lan_schedule.specs.inside.Beside.{Controlled};

    ghost Steers = { λ before after. Controlled before.control.items before.stage before.kept
        after.stage after.kept after.came };

    fn run(&mut self) {
        let control = replace(&mut self.control, Vec::new(self.stage.alloc));
        self.came = self
            .stage
            .control(control, &mut Keeping, &mut self.kept, self.gate);
    }
}
