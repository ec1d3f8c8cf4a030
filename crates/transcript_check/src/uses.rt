//! The lines that used packet numbers.

ghost use Rattle.std.specs.Prelude.{◌≡◌, ◌∷◌, [], None, IfOk, OnOk, OnErr};
ghost use Rattle.transcript_reader.specs.Forms.{station_of};
ghost use Rattle.transcript_check.specs.Standing.{aside_at, fresh, in_run, line_in};
ghost use Rattle.transcript_check.specs.inside.Steps.{IsMore, LineIsKept, LineIsKeptAt};

use std::alloc::{AllocError, Global};
use std::collections::BTreeMap;
use std::marker::Model;
use transcript_reader::station_of;

/// The numbers of the lines of claims out of turn, by the place and the epoch of the first claim under
/// their SAK, and packet number.
pub type Aside = BTreeMap<((u8, u32), u32), u64>;

/// A claim, and the number of its line. The place tells the station and its group.
#[derive(Clone, Copy)]
pub struct Claim {
    pub number: u64,
    pub epoch: u32,
    pub pn: u32,
    pub place: u8,
}

/// The lines that used packet numbers of one station under one SAK. A station claims its packet
/// numbers mostly one after another: those lines stand in a list, from the packet number on that
/// came first. Contracts see it, the list, and the place and the epoch of the first claim, under which
/// the lines of the others are found.
#[derive(Drop)]
pub struct Uses {
    place: u8,
    epoch: u32,
    first: u32,
    line: u64,
    later: Vec<u64>,
}

impl Model for Uses {
    ghost use Rattle.std.specs.Prelude.{◌∷◌};
    ghost use Rattle.transcript_check.specs.Standing.{Lines};

    ghost Value = { Lines };

    ghost view = { λ uses. record { place = uses.place; epoch = uses.epoch; first = uses.first; run = uses.line ∷ uses.later.items } };
}

impl Uses {
    /// The first claim under a SAK. No memory is taken.
    pub fn of(alloc: Global, claim: Claim) -> Uses
        ensures { result ≡ fresh claim.place claim.epoch claim.pn claim.number }
    {
        Uses {
            place: claim.place,
            epoch: claim.epoch,
            first: claim.pn,
            line: claim.number,
            later: Vec::new(alloc),
        }
    }

    /// The number of the line that used the packet number of a claim; if none did, that of this claim
    /// is kept. An error leaves all as it was.
    pub fn keep(&mut self, aside: &mut Aside, claim: Claim) -> Result<Option<u64>, AllocError>
        ensures line { IfOk result (λ line. LineIsKept claim.pn claim.number
            self.old aside.old.entries self.new aside.new.entries line) }
        ensures kept { OnErr result ((self.new ≡ self.old) × (aside.new.entries ≡ aside.old.entries)) }
    {
        let line = self.line_by(aside, claim.pn);
        if line.is_none() {
            self.put(aside, claim)?;
        }
        Ok(line)
    }

    /// The number of the line that used a packet number.
    fn line_by(&self, aside: &Aside, pn: u32) -> Option<u64>
        ensures { result ≡ line_in self.now aside.now.entries pn }
    {
        match self.in_run(pn) {
            Some(line) => Some(line),
            None => aside.get(&((self.place, self.epoch), pn)).copied(),
        }
    }

    /// The number of the line that used a packet number, of those that stand one after another.
    fn in_run(&self, pn: u32) -> Option<u64>
        ensures { result ≡ in_run self.now.first self.now.run pn }
    {
        if pn < self.first {
            return None;
        }
        if pn == self.first {
            return Some(self.line);
        }
        self.later.get((pn - self.first - 1) as usize).copied()
    }

    /// The number of the line of a claim, whose packet number none used before, is kept. An error
    /// leaves all as it was.
    fn put(&mut self, aside: &mut Aside, claim: Claim) -> Result<(), AllocError>
        ensures put { line_in self.old aside.old.entries claim.pn ≡ None
            → OnOk result (IsMore claim.pn claim.number self.old aside.old.entries
            self.new aside.new.entries) }
        ensures kept { OnErr result ((self.new ≡ self.old) × (aside.new.entries ≡ aside.old.entries)) }
    {
        if claim.pn as usize == self.first as usize + 1 + self.later.len() {
            self.later.push(claim.number)?;
            return Ok(());
        }
        aside.insert(((self.place, self.epoch), claim.pn), claim.number)?;
        Ok(())
    }
}

/// The number of the line that used the packet number of a claim under the octets of a SAK; if none
/// did, that of this claim is kept. An error leaves all as it was.
pub fn keep_at<const N: usize>(
    alloc: Global,
    lines: &mut BTreeMap<(u8, [u8; N]), Uses>,
    aside: &mut Aside,
    octets: [u8; N],
    claim: Claim,
) -> Result<Option<u64>, AllocError>
    ensures line { IfOk result (λ line. LineIsKeptAt (station_of claim.place, octets.entry) claim.place claim.epoch claim.pn claim.number
        lines.old.entries aside.old.entries lines.new.entries aside.new.entries line) }
    ensures kept { OnErr result ((lines.new.entries ≡ lines.old.entries) × (aside.new.entries ≡ aside.old.entries)) }
{
    let key = (station_of(claim.place), octets);
    if let Some(uses) = lines.get_mut(&key) {
        return uses.keep(aside, claim);
    }
    lines.insert(key, Uses::of(alloc, claim))?;
    Ok(None)
}
