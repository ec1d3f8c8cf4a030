//! Writing a file: its head, and a record for each packet.

ghost use Rattle.std.specs.Prelude.{◌≡◌, ◌≤◌, ◌++◌, length, OnOk, OnErr};
ghost use Rattle.lan_base.specs.Room.{HasRoom, Puts};
ghost use Rattle.capture_file.specs.Pcap.{head_octets, header_octets, most_written, record_octets};

use lan_base::put;
use std::alloc::AllocError;

/// The magic number of times in microseconds.
pub const MICRO_MAGIC: u32 = 0xa1b2_c3d4;

/// The version of the format: 2.4.
const VERSION: [u16; 2] = [2, 4];

/// The most octets that are kept of a packet.
pub const WRITTEN_MAX: u32 = 65_535;

/// The link type of Ethernet.
pub const ETHERNET: u32 = 1;

/// How many octets the head has.
pub const HEAD_LEN: usize = 24;

/// How many octets a record has before those of its packet.
pub const HEADER_LEN: usize = 16;

/// Appends the head of a file.
pub fn header(into: &mut Vec<u8>) -> Result<(), AllocError>
    ensures ok { OnOk result (into.new.items ≡ into.old.items ++ head_octets) }
    ensures err { OnErr result (into.new.items ≡ into.old.items) }
{
    into.reserve(HEAD_LEN)?;
    put_head(into);
    Ok(())
}

/// Puts the head of a file.
#[tactic(auto, using(lan_base::proofs::Public::pieces))]
fn put_head(into: &mut Vec<u8>)
    requires { HasRoom into.old head_octets }
    ensures { Puts into.old into.new head_octets }
{
    let [major, minor] = VERSION;
    let (zone, accuracy) = (0_u32, 0_u32);
    put(into, &MICRO_MAGIC.to_be_bytes());
    put(into, &major.to_be_bytes());
    put(into, &minor.to_be_bytes());
    put(into, &zone.to_be_bytes());
    put(into, &accuracy.to_be_bytes());
    put(into, &WRITTEN_MAX.to_be_bytes());
    put(into, &ETHERNET.to_be_bytes());
}

/// Appends the record of a packet that was seen at this time, seconds and microseconds, and is kept
/// whole.
#[tactic(auto, using(lan_base::proofs::Public::pieces))]
pub fn packet(
    seconds: u32,
    micros: u32,
    octets: &[u8],
    into: &mut Vec<u8>,
) -> Result<(), AllocError>
    requires { length octets.now ≤ most_written }
    ensures ok { OnOk result (into.new.items
        ≡ into.old.items ++ record_octets seconds micros octets.now) }
    ensures err { OnErr result (into.new.items ≡ into.old.items) }
{
    into.reserve(HEADER_LEN + octets.len())?;
    put_header(seconds, micros, octets.len() as u32, into);
    put(into, octets);
    Ok(())
}

/// Puts the header of the record of a packet that has so many octets.
#[tactic(auto, using(lan_base::proofs::Public::pieces))]
fn put_header(seconds: u32, micros: u32, count: u32, into: &mut Vec<u8>)
    requires { HasRoom into.old (header_octets seconds micros count) }
    ensures { Puts into.old into.new (header_octets seconds micros count) }
{
    put(into, &seconds.to_be_bytes());
    put(into, &micros.to_be_bytes());
    put(into, &count.to_be_bytes());
    put(into, &count.to_be_bytes());
}
