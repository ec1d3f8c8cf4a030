//! Two groups of the same stations, stepped as one.

mod acting;
mod turning;

ghost use Rattle.std.specs.Prelude.{◌≡◌, ◌↔◌, ◌+◌, ◌++◌, ◌∷◌, ℕ, List, [], Some, None, Err, true, is_some, option_map, IfOk, OnOk, OnErr, IfErr, IfSome};
ghost use Rattle.std.specs.Option.{option_copied};
ghost use Rattle.lan_base.specs.declared.frame.UserFrame.{UserFrame};
ghost use Rattle.mka_kdf.specs.declared.group.GroupError.TheVariants as errors;
ghost use Rattle.mka_kdf.specs.declared.group.GroupFault.TheVariants.{CknLength};
ghost use Rattle.mka_kdf.specs.Kdf.{HasWrongLength};
ghost use Rattle.cak_roll.specs.declared.fault.SecondFault.{SecondFault};
ghost use Rattle.cak_roll.specs.declared.fault.TwinError.TheVariants.{NoSecond};
ghost use Rattle.cak_roll.specs.Twin.{Pair, Twin as TwinRun, TwinHappening, takes_part, adopters};
ghost use Rattle.cak_roll.specs.Stepping.{happening, twin_stop, twin_draws};
ghost use Rattle.cak_roll.specs.Standing.{StandsFor};
ghost use Rattle.cak_roll.specs.Answers.{another, is_early, second_fault, told_in, IsWhyTwin, MayHappen};

use crate::event::{GroupNumber, TwinEvent};
use crate::fault::{SecondFault, TwinError};
use crate::members::Members;
use crate::side::Side;
use crate::told::TwinFacts;
use aes_block::Secret;
use lan_base::{CKN_MAX, Draws, Octets, UserFrame, is_ckn};
use lan_core::{Drawn, Settings};
use mka_kdf::{GroupError, GroupFault};
use std::alloc::Global;
use std::marker::Model;

/// Two groups of the same stations, the second one with another CAK and CKN. Each has its own
/// participants, keys, air and packet numbers. A twin whose step failed goes no further: it answers
/// that error again, and takes no draw.
#[derive(Drop)]
pub struct Twin {
    alloc: Global,
    settings: Settings,
    stopped: Option<TwinError>,
    first: Side,
    second: Option<Side>,
    members: Members,
    drawn: Drawn,
}

impl Model for Twin {
    ghost use Rattle.cak_roll.specs.Standing.{Held};

    ghost Value = { Held };

    ghost view = { λ t. record {
      settings = t.settings;
      stopped = t.stopped;
      first = t.first;
      second = t.second;
      members = t.members;
      drawn = t.drawn;
    } };
}

impl Twin {
    /// A first group with no station, and no second one. As long as there is none, the second group's
    /// settings count as those of the first.
    pub fn new(alloc: Global, settings: Settings) -> Result<Twin, GroupError>
        ensures stands { (users : List UserFrame)
            → IfOk result (λ twin. StandsFor (record { first = settings; second = settings }) users
            twin []) }
        ensures length { (result ≡ Err (errors.Refused CknLength)) ↔ HasWrongLength settings.ckn }
        ensures alone { IfOk result (λ twin. twin.second ≡ None) }
    {
        if !is_ckn(settings.ckn.as_slice()) {
            return Err(GroupError::Refused(GroupFault::CknLength));
        }
        let kept = with_key(&settings, settings.cak, settings.ckn.copied(alloc)?);
        match Side::new(alloc, settings) {
            Ok(first) => Ok(Twin {
                alloc,
                settings: kept,
                stopped: None,
                first,
                second: None,
                members: Members::new(alloc),
                drawn: Drawn::new(alloc),
            }),
            Err(fault) => Err(GroupError::Refused(fault)),
        }
    }

    /// A second group with no station, under another CAK and CKN. No memory is taken.
    pub fn second(&mut self, cak: Secret, ckn: Octets) -> Result<(), SecondFault>
        ensures stands { (pair : Pair) (users : List UserFrame) (t : TwinRun)
            → StandsFor pair users self.old t
            → OnOk result (StandsFor (record pair { second = another pair.first cak ckn }) users
            self.new t) }
        ensures refused { (fault : SecondFault) → (result ≡ Err fault)
            ↔ (second_fault self.old ckn ≡ Some fault) }
        ensures unchanged { OnErr result (self.new ≡ self.old) }
        ensures there { OnOk result (is_some self.new.second ≡ true) }
        // All else stays: a twin that is stopped stays so.
        ensures kept { OnOk result (self.new ≡ record self.old { second = self.new.second }) }
    {
        if let Some(fault) = self.second_fault(ckn.as_slice()) {
            return Err(fault);
        }
        let settings = with_key(&self.settings, cak, ckn);
        match Side::new(self.alloc, settings) {
            Ok(second) => {
                put(&mut self.second, second);
                Ok(())
            }
            Err(GroupFault::CknLength) => Err(SecondFault::CknLength),
        }
    }

    /// One event happens at stations of both groups. What is sent comes with its user frame. The draws of
    /// a restart are made before either group performs its part.
    pub fn step<D: Draws>(
        &mut self,
        event: &TwinEvent,
        user: Option<&UserFrame>,
        draws: &mut D,
    ) -> Result<TwinFacts, TwinError>
        // Of a twin run whose next event may happen: the event tells what it has to show in both
        // groups, takes the draws that it needs, and the twin then stands for the run with it.
        ensures facts { (pair : Pair) (users : List UserFrame) (t : TwinRun)
            → StandsFor pair users self.old t
            → MayHappen users t (option_copied user.entry) event.now (D.nth draws.old)
            → IfOk result (λ told. option_map told_in
            (happening pair users t event.now (D.nth draws.old)) ≡ Some told) }
        ensures stands { (pair : Pair) (users : List UserFrame) (t : TwinRun) (x : TwinHappening)
            → StandsFor pair users self.old t
            → MayHappen users t (option_copied user.entry) event.now (D.nth draws.old)
            → happening pair users t event.now (D.nth draws.old) ≡ Some x
            → OnOk result (StandsFor pair users self.new (x ∷ t)) }
        ensures drawn { (pair : Pair) (users : List UserFrame) (t : TwinRun)
            → StandsFor pair users self.old t
            → MayHappen users t (option_copied user.entry) event.now (D.nth draws.old)
            → OnOk result ((k : ℕ) → D.nth draws.new k
            ≡ D.nth draws.old (k + twin_draws pair t event.now)) }

        // It goes on only where it meets no stop, and fails at the first one, or for want of
        // memory. A draw repeats where it gave what another draw for either group gave.
        ensures goes { (pair : Pair) (users : List UserFrame) (t : TwinRun)
            → StandsFor pair users self.old t
            → MayHappen users t (option_copied user.entry) event.now (D.nth draws.old)
            → OnOk result (twin_stop pair users t event.now (D.nth draws.old) ≡ None) }
        ensures refused { (pair : Pair) (users : List UserFrame) (t : TwinRun)
            → StandsFor pair users self.old t
            → MayHappen users t (option_copied user.entry) event.now (D.nth draws.old)
            → IfErr result (IsWhyTwin (twin_stop pair users t event.now (D.nth draws.old))) }
        // Nobody adopts a second group that isn't there.
        ensures early { self.old.stopped ≡ None
            → (result ≡ Err NoSecond) ↔ (is_early self.old event.now ≡ true) }

        // No second group comes by it.
        ensures there { OnOk result (is_some self.new.second ≡ is_some self.old.second) }

        // Where it fails the twin is stopped. It answers the same from then on, and takes no draw.
        ensures stopped { IfErr result (λ error. self.new.stopped ≡ Some error) }
        ensures again { IfSome self.old.stopped
            (λ error. (result ≡ Err error) × (self.new ≡ self.old)) }
        ensures undrawn { IfSome self.old.stopped (λ error. draws.new ≡ draws.old) }
    {
        if let Some(error) = self.stopped {
            return Err(error);
        }
        match self.perform(event, user, draws) {
            Ok(told) => Ok(told),
            Err(error) => {
                self.stopped = Some(error);
                Err(error)
            }
        }
    }

    /// Whether a station takes part in a group.
    pub fn takes_part(&self, group: GroupNumber, station: u8) -> bool
        ensures { (pair : Pair) (users : List UserFrame) (t : TwinRun)
            → StandsFor pair users self.now t → result ≡ takes_part group station t }
    {
        self.members.takes_part(group, station)
    }

    /// The stations that began in the second group, in that order.
    pub fn adopters(&self) -> &[u8]
        ensures { (pair : Pair) (users : List UserFrame) (t : TwinRun)
            → StandsFor pair users self.now t → result.now ≡ adopters t }
    {
        self.members.adopters()
    }

    /// Why a second group is refused.
    fn second_fault(&self, ckn: &[u8]) -> Option<SecondFault>
        ensures { result ≡ second_fault self.now ckn.now }
    {
        if ckn.is_empty() || ckn.len() > CKN_MAX {
            Some(SecondFault::CknLength)
        } else if ckn == self.settings.ckn.as_slice() {
            Some(SecondFault::SameCkn)
        } else if self.second.is_some() {
            Some(SecondFault::Twice)
        } else {
            None
        }
    }
}

/// A value comes into a place. What was there is let go here, where its type is any.
fn put<T: Drop>(place: &mut Option<T>, value: T)
    ensures { place.new ≡ Some value }
{
    *place = Some(value);
}

/// The same settings under another key.
fn with_key(settings: &Settings, cak: Secret, ckn: Octets) -> Settings
    ensures { result ≡ another settings.now cak ckn }
{
    Settings {
        cak,
        ckn,
        conf: settings.conf,
        early_flag: settings.early_flag,
        window: settings.window,
        rekey: settings.rekey,
        suite: settings.suite,
    }
}
