//! The lines of the trace.

ghost use Rattle.std.specs.Prelude.{◌≡◌, ◌≤◌, IfOk};
ghost use Rattle.trace_maker.specs.Made.{name_of, group, station, sending, chosen};

use lan_base::{Mac, Name, Octets, Sci};
use std::alloc::{AllocError, Global};
use trace_text::Line;

/// The group's key, 00 to 0f.
const CAK: [u8; 16] = [0, 1, 2, 3, 4, 5, 6, 7, 8, 9, 10, 11, 12, 13, 14, 15];

/// How many stations there are.
const STATIONS: u64 = 6;

/// The name of a station: an S and its digit.
fn station_name(number: u8) -> Name
    requires { number ≤ 9 }
    ensures { result ≡ name_of number }
{
    Name::of(&[b'S', b'0' + number]).unwrap()
}

/// The group's line.
pub fn group_line(alloc: Global) -> Result<Line, AllocError>
    ensures { IfOk result (λ line. line ≡ group) }
{
    let cak = Octets::from_slice(alloc, &CAK)?;
    let ckn = Octets::from_slice(alloc, b"make")?;
    Ok(Line::Group { cak, ckn })
}

/// The line of a station; a value decides its priority.
pub fn station_line(number: u8, value: u64) -> Line
    requires { number ≤ 9 }
    ensures { result ≡ station number value }
{
    Line::Station {
        name: station_name(number),
        sci: Sci([2, 0, 0, 0, 0, number, 0, 1]),
        priority: 16 + 16 * (value % 4) as u32,
    }
}

/// The line that a value chooses.
pub fn chosen_line(alloc: Global, value: u64) -> Result<Line, AllocError>
    ensures { IfOk result (λ line. line ≡ chosen value) }
{
    let from = value / 8 % STATIONS + 1;
    let to = from % STATIONS + 1;
    let number = (value / 64 % 20 + 1) as u8;
    let count = u32::from(number);
    let name = station_name(from as u8);
    let other = station_name(to as u8);
    match value % 8 {
        0..=2 => sent_line(alloc, name, number),
        3 => Ok(Line::Flow { rounds: count }),
        4 => Ok(Line::Cut {
            from: name,
            to: other,
        }),
        5 => Ok(Line::Mend {
            from: name,
            to: other,
        }),
        6 => Ok(Line::Restart { name }),
        _ => Ok(Line::TickOne { name, ticks: count }),
    }
}

/// A line that sends to everybody; the body ends with a number.
fn sent_line(alloc: Global, name: Name, number: u8) -> Result<Line, AllocError>
    ensures { IfOk result (λ line. line ≡ sending name number) }
{
    let body = Octets::from_slice(alloc, &[0x88, 0xb5, 0, number])?;
    Ok(Line::Send {
        name,
        destination: Mac([0xff; 6]),
        body,
    })
}
