//! What is kept of the fresh right frames of all senders.

ghost use Rattle.std.specs.Prelude.{◌≡◌, List, [], ◌∷◌, ◌++◌, map, IfOk, OnOk, OnErr};
ghost use Rattle.std.specs.BTreeMap.{is_at};
ghost use Rattle.std.specs.Map.{lookup};
ghost use Rattle.use_notes.specs.Frames.{AreInOrder};
ghost use Rattle.use_notes.specs.declared.frame.RightFrame.{RightFrame};
ghost use Rattle.use_notes.specs.changes.Changes.{AreChangesOf, sci_cmp};
ghost use Rattle.use_notes.specs.changes.Standing.{KeepsSome, StandsFor, change_told};
ghost use Rattle.use_notes.specs.changes.inside.Putting.{IsPutAt};

use crate::RightFrame;
use crate::changes::change::{Change, Handover};
use crate::changes::sender::SenderKeys;
use lan_base::Sci;
use std::alloc::{AllocError, Global};
use std::collections::BTreeMap;
use std::marker::Model;

/// The fresh right frames of a capture, one after another. A key of a sender takes a note, and none
/// of its further frames does. Contracts see the entries of the map.
#[derive(Drop)]
pub struct ChangeNotes {
    alloc: Global,
    senders: BTreeMap<Sci, SenderKeys>,
}

impl Model for ChangeNotes {
    ghost use Rattle.use_notes.specs.changes.Standing.{Senders};

    ghost Value = { Senders };

    ghost view = { λ n. n.senders.entries };
}

impl ChangeNotes {
    /// Of no frame. No memory is taken.
    pub fn new(alloc: Global) -> ChangeNotes
        ensures { StandsFor [] result }
    {
        ChangeNotes {
            alloc,
            senders: BTreeMap::new(alloc),
        }
    }

    /// A fresh right frame more. An error leaves all as it was.
    pub fn note(&mut self, frame: &RightFrame) -> Result<(), AllocError>
        ensures noted { (h : List RightFrame) → StandsFor h self.old → AreInOrder (frame.now ∷ h)
            → OnOk result (StandsFor (frame.now ∷ h) self.new) }
        ensures kept { OnErr result (self.new ≡ self.old) }
    {
        note_at(self.alloc, &mut self.senders, frame)
    }

    /// The changes of each sender, by sender in ascending order and then in turn.
    pub fn changes(&self) -> Result<Vec<Change>, AllocError>
        ensures { (h : List RightFrame) → StandsFor h self.now
            → IfOk result (λ cs. AreChangesOf h cs.items) }
    {
        let mut changes = Vec::new(self.alloc);
        for (sci, keys) in &self.senders {
            append(&mut changes, *sci, keys.handovers())?;
        }
        Ok(changes)
    }
}

/// The changes of a sender, behind those of others.
fn append(changes: &mut Vec<Change>, sci: Sci, handovers: &[Handover]) -> Result<(), AllocError>
    ensures { OnOk result (changes.new.items ≡ changes.old.items ++ map (change_told sci) handovers.now) }
{
    for handover in handovers {
        changes.push(handover.told(sci))?;
    }
    Ok(())
}

/// A fresh right frame more is kept under its sender. An error leaves all as it was.
fn note_at(
    alloc: Global,
    senders: &mut BTreeMap<Sci, SenderKeys>,
    frame: &RightFrame,
) -> Result<(), AllocError>
    ensures noted { (fs : List RightFrame)
        → KeepsSome fs (lookup (is_at (sci_cmp frame.now.sci)) senders.old.entries)
        → AreInOrder (frame.now ∷ fs)
        → OnOk result (IsPutAt frame.now.sci (frame.now ∷ fs) senders.old.entries senders.new.entries) }
    ensures kept { OnErr result (senders.new.entries ≡ senders.old.entries) }
{
    if let Some(keys) = senders.get_mut(&frame.sci) {
        return keys.note(*frame);
    }
    let mut keys = SenderKeys::new(alloc);
    keys.note(*frame)?;
    senders.insert(frame.sci, keys)?;
    Ok(())
}
