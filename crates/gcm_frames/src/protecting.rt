//! Writing a protected frame (IEEE Std 802.1AE, clauses 9 and 14).

ghost use Rattle.std.specs.Prelude.{◌≡◌, ◌+◌, ◌<◌, ◌≤◌, ◌++◌, Bool, List, ℕ, length, take, drop, vec_len, vec_capacity};
ghost use Rattle.gcm_frames.specs.Protected.{control_octet, short_length, sec_tag, head_octets, iv, xpn_iv, protected, protection_octets, sealed_octets};
ghost use Rattle.lan_base.specs.declared.association_number.AssociationNumber.{AssociationNumber};
ghost use Rattle.lan_base.specs.Ranges.{IsUserData, most_frame_octets};
ghost use Rattle.lan_base.specs.Room.{HasRoom, Puts};

use gcm_core::{GcmKey, seal};
use lan_base::{AssociationNumber, Mac, Sci, UserFrame, put};

/// The EtherType of MACsec.
const ETHER_TYPE: [u8; 2] = [0x88, 0xe5];

/// The flag of an explicit SCI.
const SC: u8 = 0x20;

/// The flags of enciphered and changed user data.
const E_AND_C: u8 = 0x0c;

/// How many octets stand before the secure data: addresses, and a SecTAG with an SCI.
const HEAD: usize = 28;

/// How many octets a protected frame has beside its user data: addresses, SecTAG and tag.
pub const PROTECTION_OCTETS: usize = 44;

/// From this count of octets on the short length is 0.
pub(crate) const LONG: usize = 48;

/// The octet of control information.
fn control_octet(conf: bool, an: AssociationNumber) -> u8
    ensures { result ≡ control_octet conf an }
{
    SC + if conf { E_AND_C } else { 0 } + an.number()
}

/// The short length of so many octets.
fn short_length(count: usize) -> u8
    ensures { result ≡ short_length count }
{
    if count < LONG { count as u8 } else { 0 }
}

/// The IV of a packet: the SCI, and then the packet number.
pub fn iv_of(sci: Sci, pn: u32) -> [u8; 12]
    ensures { result ≡ iv sci pn }
{
    let [a, b, c, d, e, f, g, h] = sci.0;
    let [i, j, k, l] = pn.to_be_bytes();
    [a, b, c, d, e, f, g, h, i, j, k, l]
}

/// The IV of a packet under a suite with extended packet numbers: the short SCI and then the packet
/// number, xor the salt.
pub fn xpn_iv_of(salt: [u8; 12], ssci: u32, number: u64) -> [u8; 12]
    ensures { result ≡ xpn_iv salt ssci number }
{
    let [a, b, c, d] = ssci.to_be_bytes();
    let [e, f, g, h, i, j, k, l] = number.to_be_bytes();
    let [m, n, o, p, q, r, s, t, u, v, w, x] = salt;
    [
        a ^ m,
        b ^ n,
        c ^ o,
        d ^ p,
        e ^ q,
        f ^ r,
        g ^ s,
        h ^ t,
        i ^ u,
        j ^ v,
        k ^ w,
        l ^ x,
    ]
}

/// Appends the SecTAG before so many octets of secure data.
#[tactic(auto, using(lan_base::proofs::Public::pieces))]
fn put_sec_tag(
    sci: Sci,
    an: AssociationNumber,
    pn: u32,
    conf: bool,
    count: usize,
    into: &mut Vec<u8>,
)
    requires { HasRoom into.old (sec_tag sci an pn conf count) }
    ensures { Puts into.old into.new (sec_tag sci an pn conf count) }
{
    let [first, second] = ETHER_TYPE;
    put(
        into,
        &[first, second, control_octet(conf, an), short_length(count)],
    );
    put(into, &pn.to_be_bytes());
    put(into, &sci.0);
}

/// Appends what stands before the secure data: addresses and SecTAG.
#[tactic(auto, using(lan_base::proofs::Public::pieces))]
fn put_head(
    sci: Sci,
    an: AssociationNumber,
    pn: u32,
    conf: bool,
    user: &UserFrame,
    into: &mut Vec<u8>,
)
    requires { HasRoom into.old (head_octets sci an pn conf user.now) }
    ensures { Puts into.old into.new (head_octets sci an pn conf user.now) }
{
    put(into, &user.destination.0);
    put(into, &sci.source().0);
    put_sec_tag(sci, an, pn, conf, user.body.len(), into);
}

/// How many octets stand before the secure data.
fn head_len(sci: Sci, destination: Mac) -> usize
    ensures value { (an : AssociationNumber) (pn : ℕ) (conf : Bool) (body : List ℕ) → result
        ≡ length (head_octets sci an pn conf (record { destination = destination; body = body })) }
    ensures fixed { result ≡ 28 }
{
    destination.0.len() + 6 + 8 + sci.0.len()
}

/// The tag of a frame whose head of 28 octets and user data these are. With confidentiality the
/// user data is enciphered in place.
fn seal_in_place(key: &GcmKey, iv: [u8; 12], conf: bool, frame: &mut [u8]) -> [u8; 16]
    requires head { 28 ≤ length frame.old }
    requires most { length frame.old ≤ most_frame_octets }
    ensures { sealed_octets key.now iv conf (take 28 frame.old) (drop 28 frame.old)
        ≡ frame.new ++ result }
{
    if conf {
        let (head, text) = frame.split_at_mut(HEAD);
        seal(key, iv, head, text)
    } else {
        seal(key, iv, frame, &mut [])
    }
}

/// Appends the protected frame of user data: that of the sender `sci`, under the key that stands
/// under the association number `an`, with the packet number `pn`, and enciphered where `conf` is
/// set. There is room for it, so no memory is taken. Under one key a sender uses each packet number
/// once: that is the caller's part.
pub fn protect(
    key: &GcmKey,
    sci: Sci,
    an: AssociationNumber,
    pn: u32,
    conf: bool,
    user: &UserFrame,
    into: &mut Vec<u8>,
)
    requires pn { 1 ≤ pn }
    requires user { IsUserData user.now.body }
    requires room { vec_len into.old + length user.now.body + protection_octets
        ≤ vec_capacity into.old }
    ensures appended { into.new.items ≡ into.old.items
        ++ protected key.now sci an pn conf user.now }
    ensures len { vec_len into.new ≡ vec_len into.old + length user.now.body + protection_octets }
    ensures capacity { vec_capacity into.old ≤ vec_capacity into.new }
{
    let start = into.len();
    let _head = head_len(sci, user.destination);
    put_head(sci, an, pn, conf, user, into);
    put(into, user.body.as_slice());
    let (_, frame) = into.split_at_mut(start);
    let check = seal_in_place(key, iv_of(sci, pn), conf, frame);
    put(into, &check);
}
