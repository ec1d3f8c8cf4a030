//! The key text before a capture: groups, and keys that are set by hand.

ghost use Rattle.std.specs.Prelude.{◌≡◌, ◌⊎◌, ◌<◌, ◌≤◌, ◌+◌, ◌^◌, ℕ, List, [], length, Some, Err, IfOk, Ok, OnErr, OnOk};
ghost use Rattle.lan_base.specs.Faults.{Rose};
ghost use Rattle.lan_base.specs.Ranges.{most_input};
ghost use Rattle.octet_supply.specs.Supplying.{Stands, most_given};
ghost use Rattle.audit_text.specs.InForm.{IsInFormKey};
ghost use Rattle.audit_text.specs.Parting.{is_capture};
ghost use Rattle.text_lines.specs.declared.reading.End.TheVariants as ends;
ghost use Rattle.key_ring.specs.Rings.{AreKeyed, no_ring, secret_of, whose_of, with_line};
ghost use Rattle.key_ring.specs.Reading.{ReadsRing};
ghost use Rattle.key_ring.specs.inside.Steps.{AddsLine, answered};

use aes_block::Secret;
use audit_text::{KeyLine, Part, next_part, read_key_line};
use known_keys::Sender;
use lan_base::{AssociationNumber, INPUT_MAX, Source};
use octet_supply::{LineEnd, Supply};
use packet_verdicts::Groups;
use std::alloc::Global;
use std::marker::Model;
use text_lines::End;
use trace_text::{LineError, TextFault};

/// Why a key text is not read to its end. The line with this number, from 1, is refused.
pub type RingEnd = End<(u32, TextFault)>;

/// A key that a line of the key text sets by hand.
#[derive(Clone, Copy, Debug, PartialEq, Eq)]
pub struct HandKey {
    /// The number of its line, from 1.
    pub line: u32,
    /// Whose frames it protects.
    pub sender: Sender,
    pub an: AssociationNumber,
    pub sak: Secret,
}

/// What the key text says, in the order of its lines. Contracts see both lists.
#[derive(Drop)]
pub struct KeyRing {
    pub groups: Groups,
    pub hand: Vec<HandKey>,
}

impl Model for KeyRing {
    ghost use Rattle.key_ring.specs.Rings.{Ring};

    ghost Value = { Ring };

    ghost view = { λ r. record { groups = r.groups; hand = r.hand.items } };
}

impl KeyRing {
    /// Nothing. No memory is taken.
    pub fn new(alloc: Global) -> KeyRing
        ensures { result ≡ no_ring }
    {
        KeyRing {
            groups: Groups::new(alloc),
            hand: Vec::new(alloc),
        }
    }

    /// Reads the key text that a source begins with, and answers the octets behind it too, if a
    /// capture begins there: with a magic number, or behind the line `capture` whatever they are.
    pub fn read<S: Source>(
        alloc: Global,
        source: &mut S,
    ) -> Result<(KeyRing, Option<Supply>), RingEnd>
        ensures reads { (text : List ℕ) → S.left source.old ≡ Some text
            → ReadsRing text (S.left source.new) result }
        ensures few { IfOk result (λ it. length it.0.groups < 2 ^ 32) }
        ensures keyed { IfOk result (λ it. AreKeyed it.0) }
        ensures failed { result ≡ Err ends.ReadFault
            → Rose (S.faults source.old) (S.faults source.new) }
        ensures counts { S.faults source.old ≤ S.faults source.new }
    {
        let mut supply = Supply::new(alloc, INPUT_MAX as u32);
        let mut ring = KeyRing::new(alloc);
        if ring.read_lines(alloc, &mut supply, source)? {
            Ok((ring, Some(supply)))
        } else {
            Ok((ring, None))
        }
    }

    /// Reads the lines of a key text, and answers whether a capture stands behind them. Behind an
    /// error it is not to be used.
    fn read_lines<S: Source>(
        &mut self,
        alloc: Global,
        supply: &mut Supply,
        source: &mut S,
    ) -> Result<bool, RingEnd>
        requires { most_given supply.old ≤ most_input }
        ensures reads { (text : List ℕ) → self.old ≡ no_ring
            → Stands most_input text [] supply.old (S.left source.old)
            → ReadsRing text (S.left source.new) (answered self.new supply.new result) }
        ensures few { OnOk result (length self.new.groups ≤ length self.old.groups + (most_input + 1)) }
        ensures keyed { AreKeyed self.old → OnOk result (AreKeyed self.new) }
        ensures failed { result ≡ Err ends.ReadFault
            → Rose (S.faults source.old) (S.faults source.new) }
        ensures counts { S.faults source.old ≤ S.faults source.new }
    {
        let mut line = Vec::new(alloc);
        let mut number = 0;
        loop {
            let Part::Line(end) = next_part(supply, source, &mut line)? else {
                return Ok(true);
            };
            number += 1;
            let ends = self.add_line(alloc, number, &line)?;
            let LineEnd::Feed = end else {
                return Ok(false);
            };
            if ends {
                return Ok(true);
            }
        }
    }

    /// Adds what the line of this number says, and answers whether it is `capture`, which ends the
    /// key text. An error leaves all as it was.
    fn add_line(&mut self, alloc: Global, number: u32, text: &[u8]) -> Result<bool, RingEnd>
        ensures adds { AddsLine number text.now self.old self.new result }
        ensures few { length self.new.groups ≤ length self.old.groups + 1 }
        ensures keyed { AreKeyed self.old → AreKeyed self.new }
    {
        match read_key_line(alloc, text) {
            Ok(Some(line)) => self.add(alloc, number, line),
            Ok(None) => Ok(false),
            Err(LineError::Refused(why)) => Err(End::Refused((number, why))),
            Err(LineError::Memory) => Err(End::Memory),
        }
    }

    /// Adds a line, and answers whether it ends the key text. An error, which is want of memory,
    /// leaves all as it was.
    fn add(&mut self, alloc: Global, number: u32, line: KeyLine) -> Result<bool, RingEnd>
        requires { IsInFormKey line }
        ensures added { OnOk result (self.new ≡ with_line number line self.old) }
        ensures capture { IfOk result (λ last. last ≡ is_capture (Ok (Some line))) }
        ensures memory { OnErr result ((result ≡ Err ends.Memory) × (self.new ≡ self.old)) }
        ensures keyed { AreKeyed self.old → AreKeyed self.new }
    {
        match line {
            KeyLine::Group { cak, ckn } => {
                match self
                    .groups
                    .add(alloc, secret_of(cak.as_slice()), ckn.as_slice())
                {
                    Ok(()) => Ok(false),
                    Err(_) => Err(End::Memory),
                }
            }
            KeyLine::Sak { sender, an, sak } => {
                self.hand.push(HandKey {
                    line: number,
                    sender: whose_of(sender),
                    an: AssociationNumber::of(an).unwrap_or(AssociationNumber::An0),
                    sak: secret_of(sak.as_slice()),
                })?;
                Ok(false)
            }
            KeyLine::Capture => Ok(true),
        }
    }
}

/// A key of 16 octets, or of 32.
fn secret_of(octets: &[u8]) -> Secret
    requires { (length octets.now ≡ 16) ⊎ (length octets.now ≡ 32) }
    ensures { result ≡ secret_of octets.now }
{
    if octets.len() == 16 {
        let mut key = [0; 16];
        key.copy_from_slice(octets);
        Secret::S128(key)
    } else {
        let mut key = [0; 32];
        key.copy_from_slice(octets);
        Secret::S256(key)
    }
}

/// Whose frames a key protects.
fn whose_of(sender: audit_text::Sender) -> Sender
    ensures { result ≡ whose_of sender }
{
    match sender {
        audit_text::Sender::Any => Sender::Any,
        audit_text::Sender::One(sci) => Sender::One(sci),
    }
}
