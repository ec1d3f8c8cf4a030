//! Appending to a vector that has room.

ghost use Rattle.lan_base.specs.Room.{HasRoom, Puts};

/// Appends octets that there is room for, which takes no memory.
pub fn put(into: &mut Vec<u8>, octets: &[u8])
    requires { HasRoom into.old octets.now }
    ensures { Puts into.old into.new octets.now }
{
    let _ = into.extend_from_slice(octets);
}
