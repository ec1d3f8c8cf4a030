//! The names of MKPDUs that no group has, and their lines.

ghost use Rattle.std.specs.Prelude.{ℕ, ◌≡◌, ◌≤◌, ◌++◌, ◌∷◌, [], List, OnOk, IfOk, Option, Some, None, length, map};
ghost use Rattle.std.specs.List.{list_any, position_or_len};
ghost use Rattle.audit_report.specs.Unknown.{StandsFor, first_counted, more, same_name, unknown_line, unknown_lines, unknown_of};
ghost use Rattle.audit_report.specs.inside.Naming.{comes_before, counted, nobody, with_name};

use crate::lines::{number, put_line};
use lan_base::Octets;
use std::alloc::{AllocError, Global};
use std::marker::Model;
use trace_text::Word;

/// How many names are told.
const MOST_NAMES: usize = 16;

/// A name (CKN, IEEE Std 802.1X) that no group has: how many MKPDUs are of it, and the packet of the
/// first.
#[derive(Drop)]
pub struct UnknownName {
    pub ckn: Octets,
    pub packets: u32,
    pub first: u32,
}

/// The names that came first of those that no group has, in ascending order. A value that answered that
/// memory ran out is not to be used again: no clause speaks of it. Contracts see the list.
#[derive(Drop)]
pub struct UnknownNames {
    alloc: Global,
    packets: u32,
    names: Vec<UnknownName>,
}

impl Model for UnknownNames {
    ghost use Rattle.audit_report.specs.Unknown.{KeptNames};

    ghost Value = { KeptNames };

    ghost view = { λ n. record { packets = n.packets; names = n.names.items } };
}

impl UnknownName {
    /// A name, and no MKPDU of it.
    fn of(alloc: Global, ckn: &[u8]) -> Result<UnknownName, AllocError>
        ensures { IfOk result (λ name. name ≡ nobody ckn.now) }
    {
        Ok(UnknownName {
            ckn: Octets::from_slice(alloc, ckn)?,
            packets: 0,
            first: 0,
        })
    }

    /// A copy.
    fn copied(&self, alloc: Global) -> Result<UnknownName, AllocError>
        ensures { IfOk result (λ name. name ≡ self.now) }
    {
        Ok(UnknownName {
            ckn: self.ckn.copied(alloc)?,
            packets: self.packets,
            first: self.first,
        })
    }

    /// Whether it is this one.
    fn is_named(&self, ckn: &[u8]) -> bool
        ensures { result ≡ same_name self.now.ckn ckn.now }
    {
        self.ckn.as_slice() == ckn
    }

    /// Whether it comes behind this one.
    fn is_behind(&self, ckn: &[u8]) -> bool
        ensures { result ≡ comes_before ckn.now self.now.ckn }
    {
        ckn.cmp(self.ckn.as_slice()).is_lt()
    }

    /// An MKPDU of this name in a packet.
    fn count(&mut self, ckn: &[u8], packet: u32)
        ensures { self.new ≡ counted ckn.now packet self.old }
    {
        if self.is_named(ckn) {
            self.first = first_counted(self.packets, self.first, packet);
            self.packets = more(self.packets);
        }
    }
}

impl UnknownNames {
    /// Of no packet. No memory is taken.
    pub fn new(alloc: Global) -> UnknownNames
        ensures { StandsFor [] result }
    {
        UnknownNames {
            alloc,
            packets: 0,
            names: Vec::new(alloc),
        }
    }

    /// A packet more, which is no MKPDU of a name that no group has.
    pub fn pass(&mut self)
        ensures { (h : List (Option (List ℕ))) → StandsFor h self.old → StandsFor (None ∷ h) self.new }
    {
        self.packets = more(self.packets);
    }

    /// A packet more, which is an MKPDU of this name. Costs a look at each name that is kept.
    pub fn note(&mut self, ckn: &[u8]) -> Result<(), AllocError>
        ensures { (h : List (Option (List ℕ))) → StandsFor h self.old
            → OnOk result (StandsFor (Some ckn.now ∷ h) self.new) }
    {
        put_name(self.alloc, &mut self.names, ckn)?;
        self.packets = more(self.packets);
        count_each(&mut self.names, ckn, self.packets);
        Ok(())
    }

    /// What is told of the names, in ascending order.
    pub fn told(&self) -> Result<Vec<UnknownName>, AllocError>
        ensures { (h : List (Option (List ℕ))) → StandsFor h self.now
            → IfOk result (λ us. us.items ≡ unknown_of h) }
    {
        copied(self.alloc, &self.names)
    }
}

/// One more, as far as it can be counted.
fn more(count: u32) -> u32
    ensures { result ≡ more count }
{
    count.saturating_add(1)
}

/// The first packet, where that of this one is the first if none was counted.
fn first_counted(count: u32, first: u32, packet: u32) -> u32
    ensures { result ≡ first_counted count first packet }
{
    if count == 0 { packet } else { first }
}

/// A name is put at its place, unless it is there, or there are as many as are told.
fn put_name(alloc: Global, names: &mut Vec<UnknownName>, ckn: &[u8]) -> Result<(), AllocError>
    ensures { OnOk result (names.new.items ≡ with_name ckn.now names.old.items) }
{
    if MOST_NAMES <= names.len() || has(names, ckn) {
        return Ok(());
    }
    let at = place(names, ckn);
    names.insert(at, UnknownName::of(alloc, ckn)?)?;
    Ok(())
}

/// Whether one of these is this one.
fn has(names: &[UnknownName], ckn: &[u8]) -> bool
    ensures { result ≡ list_any (λ u. same_name u.ckn ckn.now) names.now }
{
    names.iter().any(|name| name.is_named(ckn))
}

/// How many of these stand before the first that comes behind this one.
fn place(names: &[UnknownName], ckn: &[u8]) -> usize
    ensures place { result ≡ position_or_len (λ u. comes_before ckn.now u.ckn) names.now }
    ensures within { result ≤ length names.now }
{
    names
        .iter()
        .position(|name| name.is_behind(ckn))
        .unwrap_or(names.len())
}

/// An MKPDU of a name is counted.
fn count_each(names: &mut Vec<UnknownName>, ckn: &[u8], packet: u32)
    ensures { names.new.items ≡ map (counted ckn.now packet) names.old.items }
{
    for name in names.iter_mut() {
        name.count(ckn, packet);
    }
}

/// A copy of these.
fn copied(alloc: Global, names: &[UnknownName]) -> Result<Vec<UnknownName>, AllocError>
    ensures { IfOk result (λ us. us.items ≡ names.now) }
{
    let mut copies = Vec::new(alloc);
    for name in names {
        copies.push(name.copied(alloc)?)?;
    }
    Ok(copies)
}

/// Appends the line of each name. An `Err` may leave a front of it.
pub(crate) fn put_unknown(names: &[UnknownName], into: &mut Vec<u8>) -> Result<(), AllocError>
    ensures { OnOk result (into.new.items ≡ into.old.items ++ unknown_lines names.now) }
{
    for name in names {
        put_one(name, into)?;
    }
    Ok(())
}

/// Appends the line of a name.
fn put_one(name: &UnknownName, into: &mut Vec<u8>) -> Result<(), AllocError>
    ensures { OnOk result (into.new.items ≡ into.old.items ++ unknown_line name.now) }
{
    put_counted(name.ckn.as_slice(), name.packets, name.first, into)
}

/// Appends the line of a name of which there are so many MKPDUs.
fn put_counted(ckn: &[u8], packets: u32, first: u32, into: &mut Vec<u8>) -> Result<(), AllocError>
    ensures { OnOk result (into.new.items ≡ into.old.items
        ++ unknown_line (record { ckn = ckn.now; packets = packets; first = first })) }
{
    put_line(
        into,
        b"unknown",
        &[
            Word::Octets(ckn),
            Word::Text(b"packets"),
            number(packets),
            Word::Text(b"first"),
            number(first),
        ],
    )
}
