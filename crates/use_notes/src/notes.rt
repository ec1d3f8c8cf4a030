//! What is kept of all right frames.

ghost use Rattle.std.specs.Prelude.{◌≡◌, List, [], ◌∷◌, IfOk, OnErr};
ghost use Rattle.std.specs.BTreeMap.{is_at};
ghost use Rattle.std.specs.Map.{lookup};
ghost use Rattle.least_pairs.specs.Pairs.{IsJudged};
ghost use Rattle.use_notes.specs.declared.frame.RightFrame.{RightFrame};
ghost use Rattle.use_notes.specs.Frames.{AreInOrder, novelty, novelty_in};
ghost use Rattle.use_notes.specs.Once.{BreaksOnce, first_reuse};
ghost use Rattle.use_notes.specs.Standing.{KeepsSome, StandsFor};
ghost use Rattle.use_notes.specs.Uses.{AreUsesOf, use_cmp};
ghost use Rattle.use_notes.specs.inside.Putting.{IsPutAt};

use crate::counts::Counts;
use crate::frame::RightFrame;
use crate::novelty::Novelty;
use crate::sender::SenderNotes;
use lan_base::Sci;
use std::alloc::{AllocError, Global};
use std::collections::BTreeMap;
use std::marker::Model;

/// What is told of a key and a sender.
#[derive(Clone, Copy, Debug, PartialEq, Eq)]
pub struct Use {
    /// The key, counted from 1.
    pub key: u32,
    /// The sender.
    pub sci: Sci,
    /// What is told of its right frames.
    pub counts: Counts,
}

/// The right frames of a capture, one after another. A frame that is no repetition takes a note of
/// some thirty octets: its key and sender are kept once for all of them. Contracts see the entries of
/// the maps.
#[derive(Drop)]
pub struct UseNotes {
    alloc: Global,
    senders: BTreeMap<(u32, Sci), SenderNotes>,
    once: Option<(u32, u32)>,
}

impl Model for UseNotes {
    ghost use Rattle.use_notes.specs.Standing.{Notes};

    ghost Value = { Notes };

    ghost view = { λ n. record { senders = n.senders.entries; once = n.once } };
}

impl UseNotes {
    /// Of no frame. No memory is taken.
    pub fn new(alloc: Global) -> UseNotes
        ensures { StandsFor [] result }
    {
        UseNotes {
            alloc,
            senders: BTreeMap::new(alloc),
            once: None,
        }
    }

    /// A right frame more, and what it is behind those before it. An error leaves all as it was.
    pub fn note(&mut self, frame: &RightFrame) -> Result<Novelty, AllocError>
        ensures noted { (h : List RightFrame) → StandsFor h self.old → AreInOrder (frame.now ∷ h)
            → IfOk result (λ told. (told ≡ novelty_in h frame.now) × StandsFor (frame.now ∷ h) self.new) }
        ensures kept { OnErr result (self.new ≡ self.old) }
    {
        let novelty = note_at(self.alloc, &mut self.senders, frame)?;
        self.once = self.once.or(novelty.reuse_by(frame.packet));
        Ok(novelty)
    }

    /// The least pair of packets that are right under one key, of one sender and packet number, with
    /// other check values: the first reused frame, and the first with its packet number.
    pub fn once(&self) -> Option<(u32, u32)>
        ensures judged { (h : List RightFrame) → StandsFor h self.now
            → IsJudged (BreaksOnce h) result }
        ensures first { (h : List RightFrame) → StandsFor h self.now → result ≡ first_reuse h }
    {
        self.once
    }

    /// What is told of each key and sender of the frames, in ascending order.
    pub fn uses(&self) -> Result<Vec<Use>, AllocError>
        ensures { (h : List RightFrame) → StandsFor h self.now
            → IfOk result (λ us. AreUsesOf h us.items) }
    {
        let mut uses = Vec::new(self.alloc);
        for (at, notes) in &self.senders {
            uses.push(Use {
                key: at.0,
                sci: at.1,
                counts: notes.counts(),
            })?;
        }
        Ok(uses)
    }
}

/// A right frame more is kept under its key and sender. An error leaves all as it was.
fn note_at(
    alloc: Global,
    senders: &mut BTreeMap<(u32, Sci), SenderNotes>,
    frame: &RightFrame,
) -> Result<Novelty, AllocError>
    ensures noted { (fs : List RightFrame)
        → KeepsSome fs (lookup (is_at (use_cmp (frame.now.key, frame.now.sci))) senders.old.entries)
        → AreInOrder (frame.now ∷ fs)
        → IfOk result (λ told. (told ≡ novelty fs frame.now) × IsPutAt (frame.now.key, frame.now.sci) (frame.now ∷ fs) senders.old.entries senders.new.entries) }
    ensures kept { OnErr result (senders.new.entries ≡ senders.old.entries) }
{
    let at = (frame.key, frame.sci);
    if let Some(notes) = senders.get_mut(&at) {
        return notes.note(frame);
    }
    let mut notes = SenderNotes::new(alloc);
    let novelty = notes.note(frame)?;
    senders.insert(at, notes)?;
    Ok(novelty)
}
