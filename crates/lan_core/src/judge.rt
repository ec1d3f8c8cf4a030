//! What the stations of a group hear is judged once for all of them.

ghost use Rattle.std.specs.Prelude.{◌≡◌, IfOk, OnOk};
ghost use Rattle.lan_base.specs.Ranges.{IsCkn};
ghost use Rattle.lan_core.specs.inside.Judge.{IsJudged, HasKeys};

use crate::settings::{Settings, group_of};
use lan_base::{Octets, Suite};
use mka_kdf::Group;
use mka_station::{DropReason, judge};
use mkpdu_codec::{Announcement, Refusal};
use std::alloc::{AllocError, Global};
use std::marker::Model;

/// The settings of a group, and what its stations make of the octets that one of them heard last:
/// a frame that is heard by all of them is judged once.
#[derive(Drop)]
pub struct Judge {
    alloc: Global,
    settings: Settings,
    /// The group's keys, from the first judgement on.
    group: Option<Group>,
    octets: Octets,
    judgement: Result<Announcement, DropReason>,
}

impl Model for Judge {
    ghost use Rattle.lan_core.specs.inside.Judge.{Judge, IsJudge};

    ghost Value = { Judge };

    ghost view = { λ j. record { settings = j.settings; octets = j.octets } };

    ghost invariant = { λ j. IsJudge j.settings j.group j.octets j.judgement };
}

impl Judge {
    /// The judge of a group, who has judged that no octets are no frame of key agreement. It takes
    /// no memory.
    pub fn new(alloc: Global, settings: Settings) -> Judge
        requires { IsCkn settings.ckn }
        ensures { result.settings ≡ settings }
    {
        Judge {
            alloc,
            settings,
            group: None,
            octets: Octets::new(alloc),
            judgement: Err(DropReason::Unspelled(Refusal::NotMka)),
        }
    }

    /// The group's settings, with a name that is what it may be.
    pub fn settings(&self) -> &Settings
        ensures settings { result.now ≡ self.now.settings }
        ensures named { IsCkn result.now.ckn }
    {
        &self.settings
    }

    /// The cipher suite of the keys that are made.
    pub fn suite(&self) -> Suite
        ensures { result ≡ self.now.settings.suite }
    {
        self.settings.suite
    }

    /// The octets are judged, if they are not those that were judged last. An error leaves the
    /// judgement of those.
    pub fn turn_to(&mut self, octets: &[u8]) -> Result<(), AllocError>
        ensures kept { self.new.settings ≡ self.old.settings }
        ensures octets { OnOk result (self.new.octets ≡ octets.now) }
    {
        if self.octets.as_slice() == octets {
            return Ok(());
        }
        let judgement = self.judged(octets)?;
        self.octets = Octets::from_slice(self.alloc, octets)?;
        self.judgement = judgement;
        Ok(())
    }

    /// What the stations of the group make of the octets that were judged last.
    pub fn judgement(&self) -> &Result<Announcement, DropReason>
        ensures { IsJudged self.now.settings self.now.octets result.now }
    {
        &self.judgement
    }

    /// What the stations of the group make of octets, by the group's keys, which are there from then
    /// on.
    fn judged(&mut self, octets: &[u8]) -> Result<Result<Announcement, DropReason>, AllocError>
        ensures judged { IfOk result (IsJudged self.old.settings octets.now) }
        ensures same { self.new ≡ self.old }
    {
        let group = self.take_keys()?;
        let judgement = judge(self.alloc, &group, octets)?;
        self.group = Some(group);
        Ok(judgement)
    }

    /// The group's keys, which the caller gives back.
    fn take_keys(&mut self) -> Result<Group, AllocError>
        ensures keys { IfOk result (HasKeys self.old.settings) }
        ensures same { self.new ≡ self.old }
    {
        match self.group.take() {
            Some(group) => Ok(group),
            None => group_of(self.alloc, &self.settings),
        }
    }
}
