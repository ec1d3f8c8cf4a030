//! What a line asks of a group at work, and which frames and stations that names.

ghost use Rattle.std.specs.Prelude.{◌≡◌, ◌≤◌, length, IfSome};
ghost use Rattle.trace_text.specs.Writing.{IsInForm};
ghost use Rattle.lan_schedule.specs.Deeds.{IsInRange, deed_in, group_deed, station_deed, is_control};
ghost use Rattle.lan_schedule.specs.Deeds.{frames_named, stations_named, started};

use crate::places::place;
use lan_base::{Name, Octets, Sci, UserFrame};
use trace_text::Line;

/// What a line asks of a group at work: a deed has the places of the stations that the line names, and
/// owns its octets.
#[derive(Drop)]
pub enum Deed {
    /// A station starts.
    Start { name: Name, sci: Sci, priority: u32 },
    /// So many rounds of ticks.
    Tick { rounds: u32 },
    /// So many ticks of one station.
    TickOne { station: u8, ticks: u32 },
    /// So many flow rounds.
    Flow { rounds: u32 },
    /// A frame reaches a station.
    Deliver { frame: u32, station: u8 },
    /// The frames from one number to another reach a station, in their order.
    Feed { first: u32, last: u32, station: u8 },
    /// A frame goes to all others along the links that are whole.
    Spread { frame: u32 },
    /// A frame reaches nobody by itself.
    Lose { frame: u32 },
    /// A link is cut.
    Cut { from: u8, to: u8 },
    /// A link is whole again.
    Mend { from: u8, to: u8 },
    /// A station begins a new life.
    Restart { station: u8 },
    /// A station sends user data.
    Send { station: u8, user: UserFrame },
    /// Octets reach a station from outside.
    Inject { station: u8, octets: Octets },
}

/// What a line names of one kind, in its order.
#[derive(Drop)]
pub enum Named<T: Drop> {
    /// It names nothing.
    Nothing,
    /// It names one.
    One(T),
    /// It names one and then another.
    Two(T, T),
}

impl Deed {
    /// The deed of a line, where the stations have these names, if it has one.
    pub fn of(line: Line, names: &[Name]) -> Option<Self>
        requires { IsInForm line }
        ensures is { length names.now ≤ 255 → result ≡ deed_in line names.now }
        ensures ranges { IfSome result IsInRange }
    {
        match Deed::of_group(&line, names) {
            Some(deed) => Some(deed),
            None => Deed::of_station(line, names),
        }
    }

    /// What a line asks of the whole group, or of a link in it.
    fn of_group(line: &Line, names: &[Name]) -> Option<Self>
        requires { IsInForm line.now }
        ensures is { length names.now ≤ 255 → result ≡ group_deed line.now names.now }
        ensures ranges { IfSome result IsInRange }
    {
        Some(match line {
            Line::Station {
                name,
                sci,
                priority,
            } => Deed::Start {
                name: *name,
                sci: *sci,
                priority: *priority,
            },
            Line::Tick { rounds } => Deed::Tick { rounds: *rounds },
            Line::Flow { rounds } => Deed::Flow { rounds: *rounds },
            Line::Spread { frame } => Deed::Spread { frame: *frame },
            Line::Lose { frame } => Deed::Lose { frame: *frame },
            Line::Cut { from, to } => Deed::Cut {
                from: place(names, from),
                to: place(names, to),
            },
            Line::Mend { from, to } => Deed::Mend {
                from: place(names, from),
                to: place(names, to),
            },
            _ => return None,
        })
    }

    /// What a line asks of one station.
    fn of_station(line: Line, names: &[Name]) -> Option<Self>
        requires { IsInForm line }
        ensures is { length names.now ≤ 255 → result ≡ station_deed line names.now }
        ensures ranges { IfSome result IsInRange }
    {
        Some(match line {
            Line::TickOne { name, ticks } => Deed::TickOne {
                station: place(names, &name),
                ticks,
            },
            Line::Deliver { frame, name } => Deed::Deliver {
                frame,
                station: place(names, &name),
            },
            Line::Feed { first, last, name } => Deed::Feed {
                first,
                last,
                station: place(names, &name),
            },
            Line::Restart { name } => Deed::Restart {
                station: place(names, &name),
            },
            Line::Send {
                name,
                destination,
                body,
            } => Deed::Send {
                station: place(names, &name),
                user: UserFrame { destination, body },
            },
            Line::Inject { name, octets } => Deed::Inject {
                station: place(names, &name),
                octets,
            },
            _ => return None,
        })
    }

    /// The frames that it names.
    pub fn frames(&self) -> Named<u32>
        ensures { result ≡ frames_named self.now }
    {
        match self {
            Deed::Deliver { frame, .. } | Deed::Spread { frame } | Deed::Lose { frame } => {
                Named::One(*frame)
            }
            Deed::Feed { first, last, .. } => Named::Two(*first, *last),
            _ => Named::Nothing,
        }
    }

    /// The places of the stations that it names.
    pub fn stations(&self) -> Named<u8>
        ensures { result ≡ stations_named self.now }
    {
        match self {
            Deed::TickOne { station, .. }
            | Deed::Deliver { station, .. }
            | Deed::Feed { station, .. }
            | Deed::Restart { station }
            | Deed::Send { station, .. }
            | Deed::Inject { station, .. } => Named::One(*station),
            Deed::Cut { from, to } | Deed::Mend { from, to } => Named::Two(*from, *to),
            _ => Named::Nothing,
        }
    }

    /// The name and the SCI of a station that it starts.
    pub fn started(&self) -> Option<(Name, Sci)>
        ensures { result ≡ started self.now }
    {
        match self {
            Deed::Start { name, sci, .. } => Some((*name, *sci)),
            _ => None,
        }
    }

    /// Whether it may be control's.
    pub fn is_control(&self) -> bool
        ensures { result ≡ is_control self.now }
    {
        !matches!(
            self,
            Deed::Start { .. } | Deed::Feed { .. } | Deed::Send { .. }
        )
    }
}
