//! What is kept of the frames of one sender.

ghost use Rattle.std.specs.Prelude.{◌≡◌, List, [], ◌∷◌, OnOk, OnErr};
ghost use Rattle.use_notes.specs.Frames.{AreInOrder};
ghost use Rattle.use_notes.specs.declared.frame.RightFrame.{RightFrame};
ghost use Rattle.use_notes.specs.changes.Standing.{Keeps};
ghost use Rattle.use_notes.specs.changes.inside.Passing.{Begins, goes_on};

use crate::RightFrame;
use crate::changes::change::Handover;
use std::alloc::{AllocError, Global};
use std::collections::BTreeMap;
use std::marker::Model;

/// By key its place in turn, the changes in turn, and the last frame under the newest key. Contracts
/// see the entries.
#[derive(Drop)]
pub struct SenderKeys {
    turns: BTreeMap<u32, usize>,
    handovers: Vec<Handover>,
    newest: Option<RightFrame>,
}

impl Model for SenderKeys {
    ghost use Rattle.use_notes.specs.changes.Standing.{KeptOfSender};

    ghost Value = { KeptOfSender };

    ghost view = { λ s. record { turns = s.turns.entries; handovers = s.handovers.items; newest = s.newest } };
}

impl SenderKeys {
    /// Of no frame. No memory is taken.
    pub fn new(alloc: Global) -> SenderKeys
        ensures { Keeps [] result }
    {
        SenderKeys {
            turns: BTreeMap::new(alloc),
            handovers: Vec::new(alloc),
            newest: None,
        }
    }

    /// The changes in turn.
    pub fn handovers(&self) -> &[Handover]
        ensures { result.now ≡ self.now.handovers }
    {
        &self.handovers
    }

    /// A frame more. An error leaves all as it was.
    pub fn note(&mut self, frame: RightFrame) -> Result<(), AllocError>
        ensures noted { (fs : List RightFrame) → Keeps fs self.old → AreInOrder (frame ∷ fs)
            → OnOk result (Keeps (frame ∷ fs) self.new) }
        ensures kept { OnErr result (self.new ≡ self.old) }
    {
        match self.turns.get(&frame.key).copied() {
            Some(turn) => {
                self.go_on(turn, &frame);
                Ok(())
            }
            None => self.begin(&frame),
        }
    }

    /// A frame more under a key that has a turn.
    fn go_on(&mut self, turn: usize, frame: &RightFrame)
        ensures { self.new ≡ goes_on turn frame.now self.old }
    {
        match self.handovers.get_mut(turn) {
            Some(handover) => *handover = handover.with(frame),
            None => self.newest = Some(*frame),
        }
    }

    /// The first frame under a key. An error leaves all as it was.
    fn begin(&mut self, frame: &RightFrame) -> Result<(), AllocError>
        ensures begun { OnOk result (Begins frame.now self.old self.new) }
        ensures kept { OnErr result (self.new ≡ self.old) }
    {
        self.handovers.reserve(1)?;
        match self.newest {
            None => {
                self.turns.insert(frame.key, self.handovers.len())?;
            }
            Some(last) => {
                self.turns.insert(frame.key, self.handovers.len() + 1)?;
                self.handovers.push_reserved(Handover::of(&last, frame));
            }
        }
        self.newest = Some(*frame);
        Ok(())
    }
}
