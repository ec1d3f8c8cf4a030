//! What is kept of a rollover.

ghost use Rattle.std.specs.Prelude.{◌≡◌, ◌∷◌, [], List, OnOk, IfOk};
ghost use Rattle.rollover_notes.specs.Counted.{AreUnreadyOf, late};
ghost use Rattle.rollover_notes.specs.Events.{Event, Gave, Spoke, Used};
ghost use Rattle.rollover_notes.specs.Reported.{AreReportsOf};
ghost use Rattle.rollover_notes.specs.Standing.{StandsFor};

use crate::counts::Counts;
use crate::givings::Givings;
use crate::late_frames::LateFrames;
use crate::report::{Report, list_reports};
use crate::reports::Reports;
use crate::saying::Member;
use crate::speakers::Speakers;
use crate::unready::{Unready, list_unready};
use crate::walk::{count_late, tell};
use lan_base::{KeyId, Sci};
use member_notes::RightMkpdu;
use mkpdu_codec::Announcement;
use std::alloc::{AllocError, Global};
use std::collections::BTreeMap;
use std::marker::Model;
use use_notes::RightFrame;

/// Which members reported and began which keys, and which fresh frames came to a member too early or
/// too late. A value that answered that memory ran out is not to be used again: no clause speaks of it.
/// Contracts see the entries of the maps.
#[derive(Drop)]
pub struct RolloverNotes {
    alloc: Global,
    givings: Givings,
    reports: Reports,
    speakers: Speakers,
    unready: BTreeMap<(u32, Member), Counts>,
    late: BTreeMap<(u32, Sci), LateFrames>,
}

impl Model for RolloverNotes {
    ghost use Rattle.rollover_notes.specs.Standing.{KeptRollovers};

    ghost Value = { KeptRollovers };

    ghost view = { λ n. record {
      ids = n.givings.ids.entries;
      groups = n.givings.groups.keys;
      order = n.givings.order.items;
      packets = n.reports.packets.entries;
      times = n.reports.times.entries;
      said = n.speakers.said.entries;
      speakers = n.speakers.last.entries;
      unready = n.unready.entries;
      late = n.late.entries;
    } };
}

impl RolloverNotes {
    /// Nothing was read. No memory is taken.
    pub fn new(alloc: Global) -> RolloverNotes
        ensures { StandsFor [] result }
    {
        RolloverNotes {
            alloc,
            givings: Givings::new(alloc),
            reports: Reports::new(alloc),
            speakers: Speakers::new(alloc),
            unready: BTreeMap::new(alloc),
            late: BTreeMap::new(alloc),
        }
    }

    /// A right MKPDU gives the SAK of the key of this number in a group under an identifier (IEEE Std
    /// 802.1X, clause 11). Costs look-ups among the identifiers, and for a key that is new to the group
    /// a walk over the keys.
    pub fn give(&mut self, group: u32, id: KeyId, key: u32) -> Result<(), AllocError>
        ensures { (h : List Event) → StandsFor h self.old
            → OnOk result (StandsFor (Gave group id key ∷ h) self.new) }
    {
        self.givings.give(group, id, key)
    }

    /// A right MKPDU speaks that is new, at a time in nanoseconds. Costs look-ups among the members and
    /// their keys, and a copy of the peers that it lists.
    pub fn speak(
        &mut self,
        mkpdu: &RightMkpdu,
        nanos: u64,
        said: &Announcement,
    ) -> Result<(), AllocError>
        ensures { (h : List Event) → StandsFor h self.old
            → OnOk result (StandsFor (Spoke (record { mkpdu = mkpdu.now; nanos = nanos; said = said.now }) ∷ h) self.new) }
    {
        self.reports.take(&self.givings, mkpdu, nanos, &said.uses)?;
        self.speakers.take(self.alloc, mkpdu, nanos, said)
    }

    /// A fresh frame is used. Costs a walk over the speakers of SCIs: for each that is beside the frame
    /// look-ups of the peers that it lists, and of keys first given before the frame's, where it had not
    /// reported that one, or later, where it had.
    pub fn see(&mut self, frame: &RightFrame) -> Result<(), AllocError>
        ensures { (h : List Event) → StandsFor h self.old
            → OnOk result (StandsFor (Used frame.now ∷ h) self.new) }
    {
        let is_late = tell(
            &mut self.unready,
            &self.givings,
            &self.reports,
            &self.speakers,
            frame,
        )?;
        count_late(&mut self.late, frame, is_late)
    }

    /// What is told of each key and member to which fresh frames came early or joining, by key, group
    /// and MI.
    pub fn unready(&self) -> Result<Vec<Unready>, AllocError>
        ensures { (h : List Event) → StandsFor h self.now
            → IfOk result (λ us. AreUnreadyOf h us.items) }
    {
        list_unready(self.alloc, &self.unready, &self.reports)
    }

    /// What is told of each member and key that it reported, with the first packet in which it did, by
    /// group, MI and key.
    pub fn reported(&self) -> Result<Vec<Report>, AllocError>
        ensures { (h : List Event) → StandsFor h self.now
            → IfOk result (λ rs. AreReportsOf h rs.items) }
    {
        list_reports(self.alloc, &self.reports)
    }

    /// How many fresh frames under a key, of a sender, came late, and the first of them. Costs a look-up.
    pub fn late(&self, key: u32, sci: Sci) -> LateFrames
        ensures { (h : List Event) → StandsFor h self.now → result ≡ late h (key, sci) }
    {
        self.late
            .get(&(key, sci))
            .copied()
            .unwrap_or(LateFrames::none())
    }
}
