//! What is kept of the frames of one key and sender.

ghost use Rattle.std.specs.Prelude.{◌≡◌, List, [], ◌∷◌, IfOk, OnOk, OnErr};
ghost use Rattle.use_notes.specs.declared.frame.RightFrame.{RightFrame};
ghost use Rattle.use_notes.specs.Frames.{AreInOrder, novelty as novelty_of};
ghost use Rattle.use_notes.specs.Standing.{Finds, Keeps, found_alike};

use crate::counts::Counts;
use crate::frame::{First, RightFrame};
use crate::novelty::Novelty;
use std::alloc::{AllocError, Global};
use std::collections::BTreeMap;
use std::marker::Model;

/// By packet number the first frame with it; by number and check value the first one of those that reuse
/// a number; and what is told of all. Contracts see the entries.
#[derive(Drop)]
pub struct SenderNotes {
    firsts: BTreeMap<u32, First>,
    reused: BTreeMap<(u32, [u8; 16]), First>,
    counts: Counts,
}

impl Model for SenderNotes {
    ghost use Rattle.use_notes.specs.Standing.{KeptOfUse};

    ghost Value = { KeptOfUse };

    ghost view = { λ s. record { firsts = s.firsts.entries; reused = s.reused.entries; counts = s.counts } };
}

impl SenderNotes {
    /// Of no frame. No memory is taken.
    pub fn new(alloc: Global) -> SenderNotes
        ensures { Keeps [] result }
    {
        SenderNotes {
            firsts: BTreeMap::new(alloc),
            reused: BTreeMap::new(alloc),
            counts: Counts::none(),
        }
    }

    /// What is told of the frames.
    pub fn counts(&self) -> Counts
        ensures { result ≡ self.now.counts }
    {
        self.counts
    }

    /// A frame more. An error leaves all as it was.
    pub fn note(&mut self, frame: &RightFrame) -> Result<Novelty, AllocError>
        ensures noted { (fs : List RightFrame) → Keeps fs self.old → AreInOrder (frame.now ∷ fs)
            → IfOk result (λ told. (told ≡ novelty_of fs frame.now) × Keeps (frame.now ∷ fs) self.new) }
        ensures kept { OnErr result (self.new ≡ self.old) }
    {
        let first = self.firsts.get(&frame.pn).copied();
        let alike = self.alike(first, frame);
        let novelty = Novelty::after(first, alike);
        self.keep(frame, novelty)?;
        self.counts = self.counts.with(frame, novelty, alike);
        Ok(novelty)
    }

    /// The first frame with the packet number and the check value of this one, behind the first with its
    /// number, if there are such.
    fn alike(&self, first: Option<First>, frame: &RightFrame) -> Option<First>
        ensures { result ≡ found_alike first self.now.reused frame.now.pn frame.now.check }
    {
        match first {
            Some(first) if first.has_check_of(frame) => Some(first),
            _ => self.reused.get(&(frame.pn, frame.check)).copied(),
        }
    }

    /// A new frame is kept by its packet number, a reused one by that and its check value. An error leaves
    /// all as it was.
    fn keep(&mut self, frame: &RightFrame, novelty: Novelty) -> Result<(), AllocError>
        ensures noted { (fs : List RightFrame) → Finds fs self.old → novelty ≡ novelty_of fs frame.now
            → OnOk result (Finds (frame.now ∷ fs) self.new) }
        ensures counts { self.new.counts ≡ self.old.counts }
        ensures kept { OnErr result (self.new ≡ self.old) }
    {
        match novelty {
            Novelty::New => {
                self.firsts.insert(frame.pn, First::of(frame))?;
            }
            Novelty::Reused { .. } => {
                self.reused
                    .insert((frame.pn, frame.check), First::of(frame))?;
            }
            Novelty::Repeated { .. } => {}
        }
        Ok(())
    }
}
