//! Octets of a source within a limit, given out as many as are asked for.

ghost use Rattle.std.specs.Prelude.{◌≡◌, ◌<◌, ◌≤◌, ◌+◌, ◌-◌, ◌^◌, ◌++◌, ◌∷◌, ℕ, List, [], Err, IfOk, IfSome, Ok, OnErr, OnOk, Some, drop, false, length, take, true};
ghost use Rattle.lan_base.specs.Faults.{Rose};
ghost use Rattle.lan_base.specs.declared.source.ReadEnd.TheVariants as ends;
ghost use Rattle.text_lines.specs.Reading.{most_at_once};
ghost use Rattle.octet_supply.specs.declared.supply.LineEnd.TheVariants as line_ends;
ghost use Rattle.octet_supply.specs.Asking.{AsksInTurn, Fewer};
ghost use Rattle.octet_supply.specs.inside.Once.{AsksOnce, HasAsked, Holds, NextAsked};
ghost use Rattle.octet_supply.specs.Supplying.{Fills, FillsMore, GivesOne, IsInLine, Passes, Peeks, Stands, Takes, TakesLine, most_given};

use lan_base::{ReadEnd, Source};
use std::alloc::Global;
use std::marker::Model;

/// How many octets are asked for at a time.
const BUFFER: usize = 4096;

/// How a line ends.
#[derive(Clone, Copy, Debug, PartialEq, Eq)]
pub enum LineEnd {
    /// A line feed ends it.
    Feed,
    /// It has more octets than are taken of a line.
    Most,
    /// The source ends.
    Source,
}

/// Octets that were taken from a source and not given out, and the count of those that were.
#[derive(Drop)]
pub struct Supply {
    /// The octets that were taken last.
    piece: Vec<u8>,
    /// How many of them were given out.
    start: usize,
    /// How many octets were given out.
    given: usize,
    /// How many more the limit allows.
    room: usize,
    /// Whether one past the limit was taken.
    is_past: bool,
}

impl Model for Supply {
    ghost use Rattle.std.specs.Prelude.{◌<◌, ◌≤◌, ◌+◌, ◌^◌, length, drop};
    ghost use Rattle.octet_supply.specs.Supplying.{Held};

    ghost Value = { Held };

    ghost view = { λ s. record {
      octets = drop s.start s.piece.items;
      given = s.given;
      room = s.room;
      past = s.is_past;
    } };

    ghost invariant = { λ s. (s.start ≤ length s.piece.items)
        × (s.given + (length (drop s.start s.piece.items) + s.room) < 2 ^ 32) };
}

impl Supply {
    /// Nothing was taken. At most so many octets will be.
    pub fn new(alloc: Global, limit: u32) -> Supply
        ensures { result ≡ record { octets = []; given = 0; room = limit; past = false } }
    {
        Supply {
            piece: Vec::new(alloc),
            start: 0,
            given: 0,
            room: limit as usize,
            is_past: false,
        }
    }

    /// How many octets were given out.
    pub fn given(&self) -> u32
        ensures { result ≡ self.now.given }
    {
        self.given as u32
    }

    /// Appends the next octets, so many, or those that are left at the end of the source.
    pub fn take<S: Source>(
        &mut self,
        count: usize,
        source: &mut S,
        into: &mut Vec<u8>,
    ) -> Result<(), ReadEnd>
        ensures takes { (limit : ℕ) (text given : List ℕ)
            → Stands limit text given self.old (S.left source.old)
            → Takes limit text given count into.old.items into.new.items self.new
            (S.left source.new) result }
        ensures turns { AsksInTurn S.Gave (Fewer count) self.old.octets source.old source.new result }
        ensures more { OnOk result (self.new.given + length into.old.items
            ≡ self.old.given + length into.new.items) }
        ensures most { OnOk result (length into.new.items ≤ length into.old.items + count) }
        ensures failed { result ≡ Err ends.Failed → Rose (S.faults source.old) (S.faults source.new) }
        ensures counts { S.faults source.old ≤ S.faults source.new }
    {
        let mut wanted = count;
        while wanted > 0 {
            if !self.has_some(source)? {
                return Ok(());
            }
            wanted -= self.give(wanted, into)?;
        }
        Ok(())
    }

    /// Passes over the next octets, so many, or those that are left at the end of the source.
    pub fn pass<S: Source>(&mut self, count: usize, source: &mut S) -> Result<(), ReadEnd>
        ensures passes { (limit : ℕ) (text given : List ℕ)
            → Stands limit text given self.old (S.left source.old)
            → Passes limit text given count self.new (S.left source.new) result }
        ensures turns { AsksInTurn S.Gave (Fewer count) self.old.octets source.old source.new result }
        ensures more { OnOk result (self.old.given ≤ self.new.given) }
        ensures failed { result ≡ Err ends.Failed → Rose (S.faults source.old) (S.faults source.new) }
        ensures counts { S.faults source.old ≤ S.faults source.new }
    {
        let mut wanted = count;
        while wanted > 0 {
            if !self.has_some(source)? {
                return Ok(());
            }
            wanted -= self.drop_some(wanted);
        }
        Ok(())
    }

    /// Appends the octets up to the next line feed, which is given out and not appended, if there
    /// are so many at most. Of a longer line so many are appended, and the next is given out.
    pub fn line<S: Source>(
        &mut self,
        most: usize,
        source: &mut S,
        into: &mut Vec<u8>,
    ) -> Result<LineEnd, ReadEnd>
        ensures takes { (limit : ℕ) (text given : List ℕ)
            → Stands limit text given self.old (S.left source.old)
            → TakesLine limit text given most into.old.items into.new.items self.new
            (S.left source.new) result }
        ensures turns { AsksInTurn S.Gave (IsInLine most) self.old.octets source.old source.new
            result }
        ensures feed { result ≡ Ok line_ends.Feed → self.old.given < self.new.given }
        ensures most { most_given self.new ≡ most_given self.old }
        ensures failed { result ≡ Err ends.Failed → Rose (S.faults source.old) (S.faults source.new) }
        ensures counts { S.faults source.old ≤ S.faults source.new }
    {
        let mut room = most;
        while let Some(octet) = self.next(source)? {
            if octet == b'\n' {
                return Ok(LineEnd::Feed);
            }
            if room == 0 {
                return Ok(LineEnd::Most);
            }
            let Ok(()) = into.push(octet) else {
                return Err(ReadEnd::Memory);
            };
            room -= 1;
        }
        Ok(LineEnd::Source)
    }

    /// Holds the next octets, so many at least, and gives none out: fewer only where fewer are left
    /// before the end of the source.
    pub fn peek<S: Source>(&mut self, count: usize, source: &mut S) -> Result<(), ReadEnd>
        requires { count ≤ most_at_once }
        ensures peeks { (limit : ℕ) (text given : List ℕ)
            → Stands limit text given self.old (S.left source.old)
            → Peeks limit text given count self.new (S.left source.new) result }
        ensures turns { AsksInTurn S.Gave (Fewer count) self.old.octets source.old source.new result }
        ensures given { self.new.given ≡ self.old.given }
        ensures most { most_given self.new ≡ most_given self.old }
        ensures failed { result ≡ Err ends.Failed → Rose (S.faults source.old) (S.faults source.new) }
        ensures counts { S.faults source.old ≤ S.faults source.new }
    {
        while self.piece.len() - self.start < count {
            if self.is_past {
                return Err(ReadEnd::Limit);
            }
            if !self.ask(source)? {
                return Ok(());
            }
        }
        Ok(())
    }

    /// The octets that are held, which are the next.
    pub fn held(&self) -> &[u8]
        ensures { result.now ≡ self.now.octets }
    {
        &self.piece[self.start..]
    }

    /// Gives out the next octet, if there is one before the end of the source.
    fn next<S: Source>(&mut self, source: &mut S) -> Result<Option<u8>, ReadEnd>
        ensures gives { (limit : ℕ) (text given : List ℕ)
            → Stands limit text given self.old (S.left source.old)
            → GivesOne limit text given self.new (S.left source.new) result }
        ensures asks { NextAsked S.Gave self.old self.new source.old source.new result }
        ensures more { IfOk result (λ next. IfSome next
            (λ _. self.new.given ≡ self.old.given + 1)) }
        ensures most { most_given self.new ≡ most_given self.old }
        ensures failed { result ≡ Err ends.Failed → Rose (S.faults source.old) (S.faults source.new) }
        ensures counts { S.faults source.old ≤ S.faults source.new }
    {
        if !self.has_some(source)? {
            return Ok(None);
        }
        Ok(Some(self.give_one()))
    }

    /// Whether octets are held, if need be after more were asked for. There are none only at the end.
    fn has_some<S: Source>(&mut self, source: &mut S) -> Result<bool, ReadEnd>
        ensures fills { (limit : ℕ) (text given : List ℕ)
            → Stands limit text given self.old (S.left source.old)
            → Fills limit text given self.new (S.left source.new) result }
        ensures asks { HasAsked S.Gave self.old self.new source.old source.new result }
        ensures some { IfOk result (λ has. has ≡ true → 1 ≤ length self.new.octets) }
        ensures given { self.new.given ≡ self.old.given }
        ensures most { most_given self.new ≡ most_given self.old }
        ensures failed { result ≡ Err ends.Failed → Rose (S.faults source.old) (S.faults source.new) }
        ensures counts { S.faults source.old ≤ S.faults source.new }
    {
        if self.start < self.piece.len() {
            return Ok(true);
        }
        if self.is_past {
            return Err(ReadEnd::Limit);
        }
        self.ask(source)
    }

    /// Asks for more octets behind those that are held.
    fn ask<S: Source>(&mut self, source: &mut S) -> Result<bool, ReadEnd>
        requires few { length self.old.octets < most_at_once }
        requires within { self.old.past ≡ false }
        ensures fills { (limit : ℕ) (text given : List ℕ)
            → Stands limit text given self.old (S.left source.old)
            → FillsMore limit text given self.old.octets self.new (S.left source.new) result }
        ensures asks { AsksOnce S.Gave self.old self.new source.old source.new result }
        ensures some { IfOk result (λ has. has ≡ true
            → length self.old.octets < length self.new.octets) }
        ensures given { self.new.given ≡ self.old.given }
        ensures most { most_given self.new ≡ most_given self.old }
        ensures failed { result ≡ Err ends.Failed → Rose (S.faults source.old) (S.faults source.new) }
        ensures counts { S.faults source.old ≤ S.faults source.new }
    {
        let mut buffer = [0; BUFFER];
        let most = BUFFER - (self.piece.len() - self.start);
        let count = source.read(&mut buffer[..most])?;
        self.hold(&buffer[..count])
    }

    /// Holds the octets that were read too, as far as the limit allows.
    fn hold(&mut self, octets: &[u8]) -> Result<bool, ReadEnd>
        requires within { self.old.past ≡ false }
        requires few { length self.old.octets + length octets.now ≤ most_at_once }
        ensures fills { (limit : ℕ) (text given rest : List ℕ)
            → Stands limit text given self.old (Some (octets.now ++ rest))
            → (octets.now ≡ [] → rest ≡ [])
            → FillsMore limit text given self.old.octets self.new (Some rest) result }
        ensures holds { Holds self.old octets.now self.new result }
        ensures some { IfOk result (λ has. has ≡ true
            → length self.old.octets < length self.new.octets) }
        ensures given { self.new.given ≡ self.old.given }
        ensures most { most_given self.new ≡ most_given self.old }
        ensures memory { result ≡ Err ends.Failed → ⊥ }
    {
        self.forget();
        self.is_past = self.room < octets.len();
        let count = octets.len().min(self.room);
        self.piece.extend_from_slice(&octets[..count])?;
        self.room -= count;
        if self.is_past && count == 0 {
            return Err(ReadEnd::Limit);
        }
        Ok(count > 0)
    }

    /// Forgets the octets of the piece that were given out.
    fn forget(&mut self)
        ensures same { self.new ≡ self.old }
    {
        let held = self.piece.len() - self.start;
        self.piece.copy_within(self.start.., 0);
        self.piece.truncate(held);
        self.start = 0;
    }

    /// Appends octets that are held, so many at most, and answers how many.
    fn give(&mut self, most: usize, into: &mut Vec<u8>) -> Result<usize, ReadEnd>
        requires some { 1 ≤ length self.old.octets }
        requires wanted { 1 ≤ most }
        ensures count { IfOk result (λ n. (1 ≤ n) × (n ≤ most) × (n ≤ length self.old.octets)) }
        ensures appended { IfOk result
            (λ n. into.new.items ≡ into.old.items ++ take n self.old.octets) }
        ensures held { IfOk result (λ n. self.new ≡ record self.old {
          octets = drop n self.old.octets;
          given = self.old.given + n;
        }) }
        ensures memory { OnErr result (result ≡ Err ends.Memory) }
    {
        let count = most.min(self.piece.len() - self.start);
        let end = self.start + count;
        into.extend_from_slice(&self.piece[self.start..end])?;
        self.start = end;
        self.given += count;
        Ok(count)
    }

    /// Drops octets that are held, so many at most, and answers how many.
    fn drop_some(&mut self, most: usize) -> usize
        requires some { 1 ≤ length self.old.octets }
        requires wanted { 1 ≤ most }
        ensures count { (1 ≤ result) × (result ≤ most) × (result ≤ length self.old.octets) }
        ensures held { self.new ≡ record self.old {
          octets = drop result self.old.octets;
          given = self.old.given + result;
        } }
    {
        let count = most.min(self.piece.len() - self.start);
        self.start += count;
        self.given += count;
        count
    }

    /// Gives out the first octet that is held.
    fn give_one(&mut self) -> u8
        requires { 1 ≤ length self.old.octets }
        ensures octet { take 1 self.old.octets ≡ result ∷ [] }
        ensures held { self.new ≡ record self.old {
          octets = drop 1 self.old.octets;
          given = self.old.given + 1;
        } }
    {
        let octet = self.piece[self.start];
        self.start += 1;
        self.given += 1;
        octet
    }
}
