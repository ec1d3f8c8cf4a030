//! What workers protected while events went on, and now waits for its emission.

ghost use Rattle.std.specs.Prelude.{◌≡◌, ◌++◌, List, map, IfOk, OnOk, OnErr};
ghost use Rattle.lan_base.specs.declared.frame.UserFrame.{UserFrame};
ghost use Rattle.lan_core.specs.declared.settings.Settings.{Settings};
ghost use Rattle.lan_core.specs.Run.{Run, Happening};
ghost use Rattle.lan_core.specs.Legal.{IsStepped};
ghost use Rattle.lan_core.specs.Standing.{StandsFor};
ghost use Rattle.lan_core.specs.Parts.{followed_by, without_claims, AreProtected, sealed_from};

use super::Lan;
use crate::waiting::{Queue, Sealed};
use lan_base::Protected;
use std::alloc::{AllocError, Global};

impl Lan {
    /// Protected frames wait to be put on the air, behind those that wait. An error leaves the group
    /// as it was.
    pub fn settle(&mut self, taken: Vec<Protected>) -> Result<(), AllocError>
        // They are the frames of claims that workers made while the events without them happened.
        ensures stands { (settings : Settings) (users : List UserFrame) (part : List Happening)
            (r : Run)
            → StandsFor settings users self.old (followed_by (without_claims part) r)
            → IsStepped settings users (followed_by part r)
            → AreProtected settings users taken.items part r
            → OnOk result (StandsFor settings users self.new (followed_by part r)) }
        ensures ok { OnOk result (self.new ≡ record self.old {
          waiting = self.old.waiting ++ map sealed_from taken.items;
        }) }
        ensures err { OnErr result (self.new ≡ self.old) }
    {
        let frames = sealed_frames(self.alloc, taken)?;
        self.waiting.append(frames)
    }
}

/// Protected frames as they wait for their emission.
fn sealed_frames(alloc: Global, taken: Vec<Protected>) -> Result<Queue, AllocError>
    ensures { IfOk result (λ frames. frames ≡ map sealed_from taken.items) }
{
    let mut frames = Queue::new(alloc);
    for frame in taken {
        let Protected {
            station,
            octets,
            ..
        } = frame;
        frames.push(Sealed { station, octets })?;
    }
    Ok(frames)
}
