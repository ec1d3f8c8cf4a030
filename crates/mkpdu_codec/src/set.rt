//! What every parameter set has: a header of four octets, a body, and padding.

ghost use Rattle.std.specs.Prelude.{◌≡◌, ◌<◌, ◌+◌, ◌*◌, replicate};
ghost use Rattle.lan_base.specs.Room.{HasRoom, Puts};
ghost use Rattle.mkpdu_codec.specs.Sets.{header, missing, set_length};
ghost use Rattle.mkpdu_codec.specs.Fields.{set_at};
ghost use Rattle.mkpdu_codec.specs.inside.Views.{Finds, set_of};

use lan_base::put;

/// A parameter set as it stands in a frame: its type, its second octet, the four flags of its
/// third, and its body.
#[derive(Clone, Copy)]
pub struct ParameterSet<'a> {
    pub kind: u8,
    pub second: u8,
    pub flags: u8,
    pub body: &'a [u8],
}

/// The octets of a set's header.
pub const HEADER_LEN: usize = 4;

/// How many octets are missing from a length up to the next multiple of four.
pub fn missing_after(len: usize) -> usize
    ensures value { result ≡ missing len }
    ensures few { result < 4 }
{
    (4 - len % 4) % 4
}

/// How many octets a set has whose body has `len`.
pub fn set_len(len: usize) -> usize
    requires { len < 4096 }
    ensures { result ≡ set_length len }
{
    HEADER_LEN + len + missing_after(len)
}

/// Writes a set's header: its type, its second octet, its four flags, and the length of its body.
pub fn put_header(kind: u8, second: u8, flags: u8, len: usize, into: &mut Vec<u8>)
    requires flags { flags < 16 }
    requires len { len < 4096 }
    requires room { HasRoom into.old (header kind second flags len) }
    ensures { Puts into.old into.new (header kind second flags len) }
{
    put(
        into,
        &[
            kind,
            second,
            flags * 16 + (len / 256) as u8,
            (len % 256) as u8,
        ],
    );
}

/// Writes the padding after a body of `len` octets.
pub fn put_padding(len: usize, into: &mut Vec<u8>)
    requires { HasRoom into.old (replicate (missing len) 0) }
    ensures { Puts into.old into.new (replicate (missing len) 0) }
{
    put(into, &[0; 3][..missing_after(len)]);
}

/// Reads the set in front, with its padding. The octets that follow it are left.
#[tactic(auto, unfolding(crate::specs::Fields::set_at))]
pub fn read_set(octets: &[u8]) -> Option<(ParameterSet<'_>, &[u8])>
    ensures { Finds (λ x. (set_of x.0, x.1.now)) result (set_at octets.now) }
{
    let (header, rest) = octets.split_first_chunk::<4>()?;
    let len = (header[2] % 16) as usize * 256 + header[3] as usize;
    let (whole, rest) = rest.split_at_checked(len + missing_after(len))?;
    let set = ParameterSet {
        kind: header[0],
        second: header[1],
        flags: header[2] / 16,
        body: &whole[..len],
    };
    Some((set, rest))
}
