//! What is kept of the facts so far.

ghost use Rattle.std.specs.Prelude.{[], List};
ghost use Rattle.lan_core.specs.declared.fact.Fact.{Fact};
ghost use Rattle.transcript_picture.specs.inside.Sketching.{IsSketchOf, Sketches};

use crate::scene::Scene;
use lan_core::Fact;
use std::alloc::Global;
use std::marker::Model;
use transcript_check::{CheckError, CheckFault, Epochs};
use transcript_reader::{FactTaker, TakeError};

/// What is kept of the facts so far. Contracts see the SAKs that stations installed, and what is seen of the scene.
#[derive(Drop)]
pub struct Sketch {
    epochs: Epochs,
    scene: Scene,
}

impl Model for Sketch {
    ghost use Rattle.transcript_picture.specs.inside.Sketching.{KeptSketch};

    ghost Value = { KeptSketch };

    ghost view = { λ s. record { saks = s.epochs; scene = s.scene } };
}

impl Sketch {
    /// No fact was taken. No memory is taken.
    pub fn new(alloc: Global) -> Sketch
        ensures { IsSketchOf [] result }
    {
        Sketch {
            epochs: Epochs::new(alloc),
            scene: Scene::new(alloc),
        }
    }

    /// What the facts show.
    pub fn scene(&self) -> &Scene {
        &self.scene
    }

    /// The next fact. One that is refused leaves the value as it was.
    fn draw(&mut self, fact: &Fact) -> Result<(), CheckError>
        ensures { (facts : List Fact) → IsSketchOf facts self.old
            → Sketches facts fact.now self.old self.new result }
    {
        self.epochs.take(fact)?;
        self.scene.take(fact)?;
        Ok(())
    }
}

impl FactTaker<()> for Sketch {
    ghost use Rattle.transcript_check.proofs.Public.{fact-denies};
    ghost use Rattle.transcript_check.specs.declared.fault.CheckFault.TheVariants.{Unread};
    ghost use Rattle.transcript_check.specs.Standing.{Refuses, by_epochs, without_outlet};
    ghost use Rattle.transcript_picture.specs.inside.Sketching.{IsSketchOf};

    type Fault = CheckFault;

    ghost rule = { by_epochs };

    ghost Refuses = { Refuses };

    ghost unread = { Unread };

    ghost courses = { without_outlet IsSketchOf };

    ghost Grew = { λ old new. Unit {0} };

    ghost Fails = { λ old new. ⊥ };

    fn unread() -> CheckFault {
        CheckFault::Unread
    }

    fn fact(&mut self, fact: &Fact, _outlet: &mut ()) -> Result<(), TakeError<CheckFault>> {
        self.draw(fact)?;
        Ok(())
    }

    ghost untold = { λ known facts line none. none };

    ghost denied = { λ known after facts line fact why tells refused.
        fact-denies known facts line after fact tells why refused };

    ghost breaks = { λ first now facts took. tt };

    ghost stays = { λ a. tt };

    ghost further = { λ a b c earlier later. tt };

    ghost late = { λ a b c earlier fails. fails };
}
