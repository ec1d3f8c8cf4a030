//! What comes over the air, and what is sent: deliveries, foreign octets, claims, emissions.

ghost use Rattle.std.specs.Prelude.{◌≡◌, ◌≤◌, ◌++◌, List, ℕ, Some, None, Option, option_map, option_to_list, IfOk, OnOk, OnErr};
ghost use Rattle.std.specs.Option.{option_copied};
ghost use Rattle.lan_base.specs.declared.frame.UserFrame.{UserFrame};
ghost use Rattle.lan_base.specs.Ranges.{IsUserData};
ghost use Rattle.aes_block.specs.Secrets.{secret_octets};
ghost use Rattle.gcm_frames.specs.Protected.{protected};
ghost use Rattle.sak_exchange.specs.Held.{transmitting};
ghost use Rattle.rx_slots.specs.Histories.{Receiving};
ghost use Rattle.lan_core.specs.declared.event.Event.TheVariants as events;
ghost use Rattle.lan_core.specs.declared.settings.Settings.{Settings};
ghost use Rattle.lan_core.specs.Run.{Run};
ghost use Rattle.lan_core.specs.Lives.{Life, keys_in};
ghost use Rattle.lan_core.specs.Stops.{MayCome};
ghost use Rattle.lan_core.specs.Standing.{StandsFor, Sits};
ghost use Rattle.lan_core.specs.Answers.{Answers};
ghost use Rattle.lan_core.specs.Batches.{IsChecked};
ghost use Rattle.lan_core.specs.inside.Shown.{claim_shown};

use super::Lan;
use super::stopping::judge_forgery;
use crate::fact::{Fact, Facts, Lack};
use crate::limits::judge_installs;
use crate::seat::Seat;
use crate::stop::StepError;
use crate::waiting::{Queue, Sealed};
use lan_base::{FRAME_MAX, Octets, UserFrame, is_user_data};
use rx_slots::Checked;
use sak_exchange::HeldKey;
use std::alloc::AllocError;

impl Lan {
    /// A frame of the air reaches a station.
    pub(super) fn deliver(&mut self, frame: u32, station: u8) -> Result<Facts, StepError>
        ensures answers { (settings : Settings) (users : List UserFrame) (r : Run)
            (nth : ℕ → Option (List ℕ))
            → StandsFor settings users self.old r
            → MayCome settings users r None (events.Deliver frame station)
            → Answers settings users r (events.Deliver frame station) nth nth self.new result }
        ensures shown { OnErr result ((self.new.air ≡ self.old.air)
            × (self.new.names ≡ self.old.names)) }
    {
        let Some(octets) = self.air.frame(frame) else {
            return Ok(Facts::new(self.alloc));
        };
        self.seats.judge_counts(station)?;
        let Some(event_facts) = self.seats.reach(station, frame, octets, &mut self.judge)? else {
            return Ok(Facts::new(self.alloc));
        };
        judge_installs(event_facts.installs)?;
        Ok(event_facts.facts)
    }

    /// A frame of the air that was checked reaches a station.
    pub(super) fn admit_frame(
        &mut self,
        station: u8,
        number: u32,
        checked: Checked,
    ) -> Result<Facts, StepError>
        ensures answers { (settings : Settings) (users : List UserFrame) (r : Run)
            (nth : ℕ → Option (List ℕ))
            → StandsFor settings users self.old r → IsChecked r number station checked
            → Answers settings users r (events.Deliver number station) nth nth self.new result }
        ensures shown { (self.new.air ≡ self.old.air) × (self.new.names ≡ self.old.names) }
    {
        let Some(event_facts) = self.seats.admit(station, number, checked)? else {
            return Ok(Facts::new(self.alloc));
        };
        judge_installs(event_facts.installs)?;
        Ok(event_facts.facts)
    }

    /// A station protects a user frame, or gets no packet number.
    pub(super) fn claim(
        &mut self,
        station: u8,
        pn: u32,
        user: Option<&UserFrame>,
    ) -> Result<Facts, StepError>
        ensures answers { (settings : Settings) (users : List UserFrame) (r : Run)
            (nth : ℕ → Option (List ℕ)) (number : ℕ)
            → StandsFor settings users self.old r
            → MayCome settings users r (option_copied user.entry) (events.Claim station number pn)
            → Answers settings users r (events.Claim station number pn) nth nth self.new result }
        ensures shown { OnErr result ((self.new.air ≡ self.old.air)
            × (self.new.names ≡ self.old.names)) }
    {
        let Some(claimed) = self.seats.claim(station, pn, user)? else {
            return Ok(Facts::new(self.alloc));
        };
        let facts = Facts::one(self.alloc, claim_fact(station, pn, claimed.key))?;
        wait(&mut self.waiting, station, claimed.octets)?;
        Ok(facts)
    }

    /// The oldest frame that waits is put on the air.
    pub(super) fn emit(&mut self) -> Result<Facts, StepError>
        ensures answers { (settings : Settings) (users : List UserFrame) (r : Run)
            (nth : ℕ → Option (List ℕ))
            → StandsFor settings users self.old r → MayCome settings users r None events.Emit
            → Answers settings users r events.Emit nth nth self.new result }
        ensures shown { OnErr result ((self.new.air ≡ self.old.air)
            × (self.new.names ≡ self.old.names)) }
    {
        let number = self.air.next_number();
        let Some(frame) = self.waiting.pop() else {
            return Ok(Facts::new(self.alloc));
        };
        self.extent(Some(&frame.octets), self.ticks, 0).judge()?;
        let octets = frame.octets.copied(self.alloc)?;
        let facts = Facts::one(
            self.alloc,
            Fact::Framed {
                number,
                station: frame.station,
                sec: true,
                octets,
            },
        )?;
        self.air.push(frame.octets)?;
        Ok(facts)
    }

    /// Foreign octets reach a station.
    pub(super) fn inject(&mut self, station: u8, octets: &[u8]) -> Result<Facts, StepError>
        ensures answers { (settings : Settings) (users : List UserFrame) (r : Run)
            (nth : ℕ → Option (List ℕ))
            → StandsFor settings users self.old r
            → MayCome settings users r None (events.Inject station octets.now)
            → Answers settings users r (events.Inject station octets.now) nth nth self.new result }
        ensures shown { OnErr result ((self.new.air ≡ self.old.air)
            × (self.new.names ≡ self.old.names)) }
    {
        if octets.len() > FRAME_MAX {
            return Ok(Facts::new(self.alloc));
        }
        self.seats.judge_counts(station)?;
        let Some(event_facts) = self.seats.reach(station, 0, octets, &mut self.judge)? else {
            return Ok(Facts::new(self.alloc));
        };
        judge_installs(event_facts.installs)?;
        judge_forgery(&mut self.judge, &self.air, station, octets)?;
        Ok(event_facts.facts)
    }
}

/// What a claim shows at a station that transmits under this key.
fn claim_fact(station: u8, pn: u32, held: Option<HeldKey>) -> Fact
    ensures { result ≡ claim_shown station pn held }
{
    let Some(held) = held else {
        return Fact::Unclaimed {
            station,
            why: Lack::NoKey,
        };
    };
    if pn == 0 {
        return Fact::Unclaimed {
            station,
            why: Lack::Exhausted {
                epoch: held.key.epoch,
            },
        };
    }
    Fact::Claimed {
        station,
        an: held.key.an,
        epoch: held.key.epoch,
        pn,
    }
}

/// A station's frame waits to be put on the air, if there is one.
fn wait(waiting: &mut Queue, station: u8, octets: Option<Octets>) -> Result<(), AllocError>
    ensures { OnOk result (waiting.new ≡ waiting.old ++ option_to_list
        (option_map (λ octets. record { station = station; octets = octets }) octets)) }
{
    if let Some(octets) = octets {
        waiting.push(Sealed { station, octets })?;
    }
    Ok(())
}
