//! Who is where: the stations, which of them adopted the second group, and who left a group.

ghost use Rattle.std.specs.Prelude.{◌≡◌, ◌≤◌, List, [], length, slice_get, OnOk};
ghost use Rattle.std.specs.Option.{option_copied};
ghost use Rattle.std.specs.List.{list_any};
ghost use Rattle.lan_base.specs.declared.frame.UserFrame.{UserFrame};
ghost use Rattle.lan_core.specs.Run.{stations};
ghost use Rattle.cak_roll.specs.Twin.{Pair, Twin, IsTwinRun};
ghost use Rattle.cak_roll.specs.Twin.{run_of, place_in, takes_part};
ghost use Rattle.cak_roll.specs.Twin.{place_among, adopters};
ghost use Rattle.cak_roll.specs.Standing.{AreMembers, is_leaver};
ghost use Rattle.cak_roll.specs.inside.Following.{with_event};

use crate::event::{GroupNumber, TwinEvent};
use lan_base::{Name, Sci};
use std::alloc::{AllocError, Global};
use std::marker::Model;

/// What a station started with in the first group. It starts so in the second one too.
#[derive(Drop)]
pub struct Station {
    pub name: Name,
    pub sci: Sci,
    pub priority: u8,
}

/// A station that takes part in a group no more.
#[derive(Drop)]
pub struct Leaver {
    pub station: u8,
    pub group: GroupNumber,
}

/// The stations of both groups.
#[derive(Drop)]
pub struct Members {
    stations: Vec<Station>,
    adopters: Vec<u8>,
    leavers: Vec<Leaver>,
}

impl Model for Members {
    ghost use Rattle.cak_roll.specs.Standing.{Members};

    ghost Value = { Members };

    ghost view = { λ m. record {
      stations = m.stations.items;
      adopters = m.adopters.items;
      leavers = m.leavers.items;
    } };
}

impl Members {
    /// No station, which takes no memory.
    pub fn new(alloc: Global) -> Self
        ensures { AreMembers [] result }
    {
        Members {
            stations: Vec::new(alloc),
            adopters: Vec::new(alloc),
            leavers: Vec::new(alloc),
        }
    }

    /// What the station of a place started with.
    pub fn station(&self, place: u8) -> Option<&Station>
        ensures { option_copied result ≡ slice_get self.now.stations place }
    {
        self.stations.get(usize::from(place))
    }

    /// The place of a station in a group; behind the last one, where it has none there.
    pub fn place(&self, group: GroupNumber, station: u8) -> u8
        ensures { (pair : Pair) (users : List UserFrame) (t : Twin) → IsTwinRun pair users t
            → AreMembers t self.now → result ≡ place_in group station t }
    {
        match group {
            GroupNumber::First => station,
            GroupNumber::Second => octet_of(position(&self.adopters, station)),
        }
    }

    /// The stations that began in the second group, in that order.
    pub fn adopters(&self) -> &[u8]
        ensures { (t : Twin) → AreMembers t self.now → result.now ≡ adopters t }
    {
        self.adopters.as_slice()
    }

    /// Whether a station takes part in a group.
    pub fn takes_part(&self, group: GroupNumber, station: u8) -> bool
        ensures { (pair : Pair) (users : List UserFrame) (t : Twin) → IsTwinRun pair users t
            → AreMembers t self.now → result ≡ takes_part group station t }
    {
        usize::from(self.place(group, station)) < self.count(group)
            && !has_left(&self.leavers, group, station)
    }

    /// How many stations joined a group.
    fn count(&self, group: GroupNumber) -> usize
        ensures { (pair : Pair) (users : List UserFrame) (t : Twin) → IsTwinRun pair users t
            → AreMembers t self.now → result ≡ length (stations (run_of group t)) }
    {
        match group {
            GroupNumber::First => self.stations.len(),
            GroupNumber::Second => self.adopters.len(),
        }
    }

    /// Stations start, adopt the second group, and leave a group.
    pub fn follow(&mut self, event: &TwinEvent) -> Result<(), AllocError>
        ensures { OnOk result (self.new ≡ with_event self.old event.now) }
    {
        match event {
            TwinEvent::Start {
                name,
                sci,
                priority,
            } => self.stations.push(Station {
                name: *name,
                sci: *sci,
                priority: *priority,
            })?,
            TwinEvent::Adopt { station } => self.adopters.push(*station)?,
            TwinEvent::Leave { station, group } => self.leavers.push(Leaver {
                station: *station,
                group: *group,
            })?,
            _ => {}
        }
        Ok(())
    }
}

/// The place of a station among others, and how many there are where it is not there.
fn position(stations: &[u8], station: u8) -> usize
    ensures { result ≡ place_among station stations.now }
{
    for place in 0..stations.len() {
        if stations[place] == station {
            return place;
        }
    }
    stations.len()
}

/// A number of at most 255, as a count of stations is.
fn octet_of(number: usize) -> u8
    ensures { number ≤ 255 → result ≡ number }
{
    u8::try_from(number).unwrap_or(u8::MAX)
}

/// Whether a station left a group.
fn has_left(leavers: &[Leaver], group: GroupNumber, station: u8) -> bool
    ensures { result ≡ list_any (is_leaver group station) leavers.now }
{
    leavers.iter().any(|leaver| leaver.group.is(group) && leaver.station == station)
}
