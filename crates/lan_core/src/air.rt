//! The air: every frame that was ever put there.

ghost use Rattle.std.specs.Prelude.{◌≡◌, ◌≤◌, ◌+◌, ◌++◌, ◌∷◌, [], ℕ, true, List, Some, map, sum, length, option_to_list, IfOk, OnOk, OnErr, IfSome};
ghost use Rattle.std.specs.Option.{option_copied};
ghost use Rattle.std.specs.List.{list_any};
ghost use Rattle.lan_base.specs.Ranges.{most_frames};
ghost use Rattle.mkpdu_codec.specs.Reading.{check_value};
ghost use Rattle.lan_core.specs.Order.{most_octets};
ghost use Rattle.lan_core.specs.Standing.{octets_at};
ghost use Rattle.lan_core.specs.inside.Limits.{IsLight};
ghost use Rattle.lan_core.specs.inside.Repeats.{begins, begins_at, repeats_octets};

use crate::checks::Checks;
use lan_base::Octets;
use mkpdu_codec::{
    CHECK_LEN, ReadError, check_value, law_octets_behind_are_ignored, law_reading_refuses,
    law_spelled_is_read, read,
};
use std::alloc::{AllocError, Global};
use std::marker::Model;

/// Every frame that was ever put on the air, oldest first, and where those of key agreement are.
/// Contracts see the list of the frames' octets.
#[derive(Drop)]
pub struct Air {
    alloc: Global,
    frames: Vec<Octets>,
    /// How many octets the frames have together.
    octets: u64,
    /// The frames of key agreement, by their check values.
    checks: Checks,
}

impl Model for Air {
    ghost use Rattle.std.specs.Prelude.{ℕ, List};
    ghost use Rattle.lan_core.specs.inside.Repeats.{IsIndex};

    ghost Value = { List (List ℕ) };

    ghost view = { λ a. a.frames.items };

    ghost invariant = { λ a. IsIndex a.frames.items a.octets a.checks };
}

impl Air {
    /// An air with no frame, which takes no memory.
    pub fn new(alloc: Global) -> Air
        ensures { result ≡ [] }
    {
        Air {
            alloc,
            frames: Vec::new(alloc),
            octets: 0,
            checks: Checks::new(alloc),
        }
    }

    /// How many frames there are.
    pub fn len(&self) -> usize
        ensures len { result ≡ length self.now }
        ensures few { result ≤ most_frames }
    {
        self.frames.len()
    }

    /// How many octets the frames have together.
    pub fn octets(&self) -> u64
        ensures octets { result ≡ sum (map length self.now) }
        ensures light { result ≤ most_octets }
    {
        self.octets
    }

    /// How many frames there are, and how many octets they have together, with a frame more, if
    /// there is one.
    pub fn with(&self, sent: Option<&Octets>) -> (usize, u64)
        ensures frames { result.0 ≡ length (self.now ++ option_to_list (option_copied sent.entry)) }
        ensures octets { result.1
            ≡ sum (map length (self.now ++ option_to_list (option_copied sent.entry))) }
    {
        match sent {
            Some(frame) => (
                self.len() + 1,
                self.octets() + frame.as_slice().len() as u64,
            ),
            None => (self.len(), self.octets()),
        }
    }

    /// The frame of a number, from 1.
    pub fn frame(&self, number: u32) -> Option<&[u8]>
        ensures frame { option_copied result ≡ octets_at self.now number }
        ensures light { IfSome result (λ o. length o.now ≤ most_octets) }
    {
        let place = number.checked_sub(1)?;
        let frame = self.frames.get(place as usize)?;
        Some(frame.as_slice())
    }

    /// The number of the frame that is next put on the air.
    pub fn next_number(&self) -> u32
        ensures { result ≡ length self.now + 1 }
    {
        self.len() as u32 + 1
    }

    /// Whether octets repeat a frame of the air, but for what stands after its body.
    pub fn repeats(&self, octets: &[u8]) -> Result<bool, AllocError>
        ensures { IfOk result (λ repeats. repeats ≡ list_any (repeats_octets octets.now) self.now) }
    {
        law_spelled_is_read();
        law_reading_refuses();
        law_octets_behind_are_ignored();
        match read(self.alloc, octets) {
            Ok(spelled) => Ok(self.has(&spelled.check, &octets[..spelled.covered + CHECK_LEN])),
            Err(ReadError::Refused(_)) => Ok(false),
            Err(ReadError::Memory) => Err(AllocError),
        }
    }

    /// Whether a frame begins with these octets, which end in its check value.
    fn has(&self, check: &[u8; CHECK_LEN], octets: &[u8]) -> bool
        ensures { ((frame : List ℕ) → begins octets.now frame ≡ true
            → check_value frame ≡ Some check.now)
            → result ≡ list_any (begins octets.now) self.now }
    {
        let first = self.checks.first(check);
        self.begins(first, octets) || self.any_begins(self.checks.others(), octets)
    }

    /// Whether a frame at one of these places begins with octets.
    fn any_begins(&self, places: &[u32], octets: &[u8]) -> bool
        ensures { result ≡ list_any (λ place. begins_at self.now octets.now (Some place))
            places.now }
    {
        for place in places {
            if self.begins(Some(*place), octets) {
                return true;
            }
        }
        false
    }

    /// Whether the frame at a place begins with octets.
    fn begins(&self, place: Option<u32>, octets: &[u8]) -> bool
        ensures { result ≡ begins_at self.now octets.now place }
    {
        let Some(place) = place else {
            return false;
        };
        match self.frames.get(place as usize) {
            Some(frame) => frame.as_slice().starts_with(octets),
            None => false,
        }
    }

    /// Puts a frame on the air. An error leaves the air as it was.
    pub fn push(&mut self, octets: Octets) -> Result<(), AllocError>
        requires { IsLight (self.old ++ octets ∷ []) }
        ensures ok { OnOk result (self.new ≡ self.old ++ octets ∷ []) }
        ensures err { OnErr result (self.new ≡ self.old) }
    {
        let more = octets.len() as u64;
        let place = self.len() as u32;
        self.frames.reserve(1)?;
        self.checks.add(check_value(octets.as_slice()), place)?;
        self.frames.push(octets)?;
        self.octets += more;
        Ok(())
    }

    /// Puts a copy of a frame on the air, if there is one. An error leaves the air as it was.
    pub fn put(&mut self, sent: Option<&Octets>) -> Result<(), AllocError>
        requires { IsLight (self.old ++ option_to_list (option_copied sent)) }
        ensures ok { OnOk result (self.new ≡ self.old
            ++ option_to_list (option_copied sent.entry)) }
        ensures err { OnErr result (self.new ≡ self.old) }
    {
        if let Some(octets) = sent {
            let octets = octets.copied(self.alloc)?;
            self.push(octets)?;
        }
        Ok(())
    }
}
