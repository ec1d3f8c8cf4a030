//! The frame of a packet, without VLAN tags (IEEE Std 802.1Q).

ghost use Rattle.std.specs.Prelude.{◌≡◌, ◌+◌, ◌*◌, ◌++◌, ◌≤◌, drop, length, take};
ghost use Rattle.packet_verdicts.specs.Frames.{begins_with_tag, frame_of, tag_count};

/// How many octets the addresses of a frame have.
const ADDRESSES: usize = 12;

/// How many octets a VLAN tag has.
const TAG: usize = 4;

/// Whether octets begin with a VLAN tag.
fn begins_with_tag(octets: &[u8]) -> bool
    ensures { result ≡ begins_with_tag octets.now }
{
    octets.len() >= TAG
        && (octets[0] == 0x81 && octets[1] == 0x00 || octets[0] == 0x88 && octets[1] == 0xa8)
}

/// How many VLAN tags octets begin with, two at most.
fn tag_count(octets: &[u8]) -> usize
    ensures value { result ≡ tag_count octets.now }
    ensures within { 4 * result ≤ length octets.now }
    ensures few { result ≤ 2 }
{
    if !begins_with_tag(octets) {
        0
    } else if !begins_with_tag(&octets[TAG..]) {
        1
    } else {
        2
    }
}

/// Lays the frame of a packet open, and answers where it begins: where VLAN tags stand behind the
/// addresses, the addresses are moved over them. No other octet is touched.
pub fn uncover(octets: &mut [u8]) -> usize
    ensures frame { drop result octets.new ≡ frame_of octets.old }
    ensures within { result ≤ length octets.old }
{
    if octets.len() < ADDRESSES {
        return 0;
    }
    let (_, behind) = octets.split_at(ADDRESSES);
    let start = TAG * tag_count(behind);
    move_addresses(octets, start);
    start
}

/// Moves the addresses that octets begin with so many octets further.
fn move_addresses(octets: &mut [u8], start: usize)
    requires { start + 12 ≤ length octets.old }
    ensures { drop start octets.new ≡ take 12 octets.old ++ drop start (drop 12 octets.old) }
{
    octets.copy_within(..ADDRESSES, start);
}
