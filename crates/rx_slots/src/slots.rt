//! The receive slots of a station, one for each association number.

ghost use Rattle.std.specs.Prelude.{◌≡◌, ◌<◌, ◌≤◌, ◌+◌, ◌∷◌, [], List, ℕ, length, option_map, Ok, IsSome, IsOk, IfOk, OnOk, OnErr, if◌then◌else◌};
ghost use Rattle.aes_block.specs.Secrets.{secret_octets};
ghost use Rattle.lan_base.specs.declared.address.Sci.{Sci};
ghost use Rattle.lan_base.specs.declared.association_number.AssociationNumber.{AssociationNumber};
ghost use Rattle.lan_base.specs.AssociationNumbers.{same_an};
ghost use Rattle.gcm_core.specs.Gcm.{most_text_octets};
ghost use Rattle.rx_slots.specs.declared.arrival.Checked.{Checked};
ghost use Rattle.rx_slots.specs.Histories.{Receiving, installed, removed, heard, standing_key};
ghost use Rattle.rx_slots.specs.Answers.{IsPrompt, checked as checked_answer, checked_data};
ghost use Rattle.gcm_frames.specs.Tags.{tag_fields};
ghost use Rattle.gcm_frames.specs.Sealed.{opened as opened_data};
ghost use Rattle.rx_slots.specs.Numbers.{IsAccepted, accepted, answer, is_late as is_late_number, lowest as lowest_number};
ghost use Rattle.rx_slots.specs.Slots.{Slots, greatest_of, number_in, slot_at};
ghost use Rattle.rx_slots.specs.Standing.{StandsFor};
ghost use Rattle.rx_slots.specs.inside.Admitting.{After, Takes, arrival_at};

use crate::arrival::{Arrival, Checked};
use crate::slot::Slot;
use aes_block::{Key, Secret};
use gcm_core::GcmKey;
use gcm_frames::{Tag, tag_of, validate};
use lan_base::{AssociationNumber, Octets, Sci};
use std::alloc::{AllocError, Global};
use std::marker::Model;

/// The keys that a station receives under, and which packet numbers were accepted under each.
#[derive(Drop)]
pub struct RxSlots {
    alloc: Global,
    own: Sci,
    window: u32,
    slots: [Option<Slot>; 4],
}

impl Model for RxSlots {
    ghost use Rattle.rx_slots.specs.Slots.{Slots};

    ghost Value = { Slots };

    ghost view = { λ s. record { own = s.own; window = s.window; slots = s.slots } };
}

impl RxSlots {
    /// The slots of a station with this SCI, with no key. A packet number is late that is below the
    /// next one of its sender by more than `window`.
    pub fn new(alloc: Global, sci: Sci, window: u32) -> RxSlots
        ensures { StandsFor sci window result [] }
    {
        RxSlots {
            alloc,
            own: sci,
            window,
            slots: [None, None, None, None],
        }
    }

    /// Installs a key under an association number, in place of what stood there. The key is
    /// prepared here, once. No memory is taken.
    pub fn install(&mut self, an: AssociationNumber, sak: &Secret)
        ensures { (own : Sci) (window : ℕ) (h : List Receiving) → StandsFor own window self.old h →
            StandsFor own window self.new (installed an sak.now ∷ h) }
    {
        let slot = Slot::new(self.alloc, GcmKey::of(Key::of(sak)));
        self.set(an, Some(slot));
    }

    /// Removes what stands under an association number.
    pub fn remove(&mut self, an: AssociationNumber)
        ensures { (own : Sci) (window : ℕ) (h : List Receiving) → StandsFor own window self.old h →
            StandsFor own window self.new (removed an ∷ h) }
    {
        self.set(an, None);
    }

    /// Puts a slot, or none, in the place of what stands under an association number.
    fn set(&mut self, an: AssociationNumber, slot: Option<Slot>)
        ensures owner { self.new.own ≡ self.old.own }
        ensures width { self.new.window ≡ self.old.window }
        ensures slots { (n : AssociationNumber) → slot_at self.new n
            ≡ (if same_an n an then slot else slot_at self.old n) }
    {
        self.slots[usize::from(an.number())] = slot;
    }

    /// Answers a heard frame, which is no longer than GCM takes. An error leaves the slots as they
    /// were.
    pub fn receive(&mut self, frame: &[u8]) -> Result<Arrival, AllocError>
        requires { length frame.now ≤ most_text_octets }
        ensures answer { (own : Sci) (window : ℕ) (h : List Receiving)
            → StandsFor own window self.old h →
            IfOk result (λ arrival. arrival ≡ answer own window h frame.now) }
        ensures stands { (own : Sci) (window : ℕ) (h : List Receiving)
            → StandsFor own window self.old h →
            OnOk result (StandsFor own window self.new (heard frame.now ∷ h)) }
        ensures prompt { (own : Sci) (window : ℕ) (h : List Receiving)
            → StandsFor own window self.old h →
            IsPrompt (checked_answer own (standing_key h) frame.now) → IsOk result }
        ensures unchanged { OnErr result (self.new ≡ self.old) }
    {
        let checked = self.check(frame)?;
        self.admit(checked)
    }

    /// Answers a frame, which is no longer than GCM takes, as far as its tag.
    pub fn check(&self, frame: &[u8]) -> Result<Checked, AllocError>
        requires { length frame.now ≤ most_text_octets }
        ensures answer { (own : Sci) (window : ℕ) (h : List Receiving)
            → StandsFor own window self.now h →
            IfOk result (λ checked. checked ≡ checked_answer own (standing_key h) frame.now) }
        ensures prompt { (own : Sci) (window : ℕ) (h : List Receiving)
            → StandsFor own window self.now h →
            IsPrompt (checked_answer own (standing_key h) frame.now) → IsOk result }
    {
        let tag = match tag_of(frame) {
            Ok(tag) => tag,
            Err(refusal) => return Ok(Checked::Malformed(refusal)),
        };
        if tag.sci == self.own {
            return Ok(Checked::Own);
        }
        match &self.slots[usize::from(tag.an.number())] {
            None => Ok(Checked::Missed { an: tag.an }),
            Some(slot) => opened(self.alloc, slot.key(), &tag, frame),
        }
    }

    /// Answers a frame that `check` answered under the keys that stand now. Only a frame that is
    /// accepted takes memory. An error leaves the slots as they were.
    pub fn admit(&mut self, checked: Checked) -> Result<Arrival, AllocError>
        ensures answer { (own : Sci) (window : ℕ) (h : List Receiving) (frame : List ℕ)
            → StandsFor own window self.old h → checked ≡ checked_answer own (standing_key h) frame
            → IfOk result (λ arrival. arrival ≡ answer own window h frame) }
        ensures stands { (own : Sci) (window : ℕ) (h : List Receiving) (frame : List ℕ)
            → StandsFor own window self.old h → checked ≡ checked_answer own (standing_key h) frame
            → OnOk result (StandsFor own window self.new (heard frame ∷ h)) }
        ensures prompt { IsPrompt checked → IsOk result }
        ensures memory { (own : Sci) (window : ℕ) (h : List Receiving) (frame : List ℕ)
            → StandsFor own window self.old h → checked ≡ checked_answer own (standing_key h) frame
            → OnErr result (IsAccepted (answer own window h frame)) }
        ensures unchanged { OnErr result (self.new ≡ self.old) }
    {
        match checked {
            Checked::Malformed(refusal) => Ok(Arrival::Malformed(refusal)),
            Checked::Own => Ok(Arrival::Own),
            Checked::Missed { an } => Ok(Arrival::Missed { an }),
            Checked::BadCheck => Ok(Arrival::BadCheck),
            Checked::Sealed { sci, an, pn, body } => self.admit_number(sci, an, pn, body),
        }
    }

    /// Answers a frame whose tag is right. An error leaves the slots as they were.
    fn admit_number(
        &mut self,
        sci: Sci,
        an: AssociationNumber,
        pn: u32,
        body: Octets,
    ) -> Result<Arrival, AllocError>
        ensures answer { IfOk result (λ arrival. arrival ≡ arrival_at self.old sci an pn body) }
        ensures after { IfOk result (λ arrival. After arrival self.old self.new sci an) }
        ensures memory { OnErr result (IsAccepted (arrival_at self.old sci an pn body)) }
        ensures unchanged { OnErr result (self.new ≡ self.old) }
    {
        let Some(next) = self.next(an, &sci) else {
            return Ok(Arrival::Missed { an });
        };
        if self.is_late(next, pn) {
            return Ok(Arrival::Late { next });
        }
        self.take(sci, an, pn)?;
        Ok(Arrival::Accepted { pn, body })
    }

    /// The next packet number of a sender under the key that stands under an association number.
    fn next(&self, an: AssociationNumber, sci: &Sci) -> Option<u64>
        ensures { result
            ≡ option_map (λ slot. number_in slot.numbers sci.now) (slot_at self.now an) }
    {
        match &self.slots[usize::from(an.number())] {
            Some(slot) => Some(slot.next(sci)),
            None => None,
        }
    }

    /// Whether a packet number is late where this is the sender's next one.
    fn is_late(&self, next: u64, pn: u32) -> bool
        ensures { result ≡ is_late_number self.now.window next pn }
    {
        pn == 0 || u64::from(pn) + u64::from(self.window) < next
    }

    /// A packet number of a sender was accepted. An error leaves the slots as they were.
    fn take(&mut self, sci: Sci, an: AssociationNumber, pn: u32) -> Result<(), AllocError>
        requires { IsSome (slot_at self.old an) }
        ensures taken { OnOk result (Takes self.old self.new sci an pn) }
        ensures unchanged { OnErr result (self.new ≡ self.old) }
    {
        let Some(slot) = &mut self.slots[usize::from(an.number())] else {
            return Ok(());
        };
        slot.take(sci, pn)
    }

    /// The key that stands under an association number, prepared when it was installed.
    pub fn key(&self, an: AssociationNumber) -> Option<&GcmKey>
        ensures { (own : Sci) (window : ℕ) (h : List Receiving) → StandsFor own window self.now h →
            option_map (λ key. key.now) result
            ≡ option_map secret_octets (standing_key h an) }
    {
        match &self.slots[usize::from(an.number())] {
            Some(slot) => Some(slot.key()),
            None => None,
        }
    }

    /// The lowest acceptable packet number under an association number.
    pub fn lowest(&self, an: AssociationNumber) -> u32
        ensures { (own : Sci) (window : ℕ) (h : List Receiving) → StandsFor own window self.now h →
            result ≡ lowest_number window (accepted own window h) an }
    {
        let greatest = self.greatest(an);
        greatest
            .saturating_sub(self.window as u64)
            .clamp(1, u32::MAX as u64) as u32
    }

    /// The greatest next packet number under an association number, 1 where no key stands.
    fn greatest(&self, an: AssociationNumber) -> u64
        ensures { result ≡ greatest_of (slot_at self.now an) }
    {
        match &self.slots[usize::from(an.number())] {
            Some(slot) => slot.greatest(),
            None => 1,
        }
    }
}

/// Answers a frame by its tag under a key.
fn opened(alloc: Global, key: &GcmKey, tag: &Tag, frame: &[u8]) -> Result<Checked, AllocError>
    requires tag { tag_fields frame.now ≡ Ok tag.now }
    requires length { length frame.now ≤ most_text_octets }
    requires within { tag.now.start + tag.now.len + 16 ≤ length frame.now }
    ensures { IfOk result (λ checked. checked
        ≡ checked_data tag.now (opened_data key.now tag.now frame.now)) }
{
    let mut copy = Vec::from_slice(alloc, frame)?;
    if !validate(key, tag, &mut copy) {
        return Ok(Checked::BadCheck);
    }
    let body = Octets::from_slice(alloc, &copy[tag.start..tag.start + tag.len])?;
    Ok(Checked::Sealed {
        sci: tag.sci,
        an: tag.an,
        pn: tag.pn,
        body,
    })
}
