//! Distributed SAK (IEEE Std 802.1X, clause 11): the key that the key server gives.

ghost use Rattle.std.specs.Prelude.{◌≡◌, ◌≤◌, ◌<◌, ◌+◌, ◌*◌, ◌++◌, length};
ghost use Rattle.mkpdu_codec.specs.Fields.{given_in, key_in, of_suites, wrapped_in};
ghost use Rattle.mkpdu_codec.specs.Refusals.{is_given_length};
ghost use Rattle.lan_base.specs.Room.{HasRoom, Puts};
ghost use Rattle.mkpdu_codec.specs.Sets.{given_flags, gcm_aes_256, gcm_aes_xpn_128, gcm_aes_xpn_256};
ghost use Rattle.mkpdu_codec.specs.Written.{given_set, giving_set};
ghost use Rattle.mkpdu_codec.specs.inside.Views.{Finds, seen};

use crate::fields::{an_of, offset_of, read_number};
use crate::given::Given;
use crate::layout::DISTRIBUTED_SAK;
use crate::set::{ParameterSet, put_header, put_padding, set_len};
use crate::wrapped_key::WrappedKey;
use lan_base::put;

/// The identifier of the cipher suite GCM-AES-256.
const GCM_AES_256: [u8; 8] = [0x00, 0x80, 0xc2, 0x00, 0x01, 0x00, 0x00, 0x02];

/// The identifier of the cipher suite GCM-AES-XPN-128.
const GCM_AES_XPN_128: [u8; 8] = [0x00, 0x80, 0xc2, 0x00, 0x01, 0x00, 0x00, 0x03];

/// The identifier of the cipher suite GCM-AES-XPN-256.
const GCM_AES_XPN_256: [u8; 8] = [0x00, 0x80, 0xc2, 0x00, 0x01, 0x00, 0x00, 0x04];

/// How many octets the set has: a key for another suite isn't written.
pub fn given_len(given: Option<Given>) -> usize
    ensures value { result ≡ length (given_set given) }
    ensures most { result ≤ 56 }
{
    match given.map(|given| given.key) {
        Some(WrappedKey::Aes128(wrapped)) => set_len(4 + wrapped.len()),
        Some(WrappedKey::Aes256(wrapped)) => set_len(4 + GCM_AES_256.len() + wrapped.len()),
        Some(WrappedKey::Xpn128(wrapped)) => set_len(4 + GCM_AES_XPN_128.len() + wrapped.len()),
        Some(WrappedKey::Xpn256(wrapped)) => set_len(4 + GCM_AES_XPN_256.len() + wrapped.len()),
        Some(WrappedKey::Other) | None => 0,
    }
}

/// The second octet: association number and confidentiality offset in its high four bits.
fn second_of(given: &Given) -> u8
    ensures { result ≡ given_flags given.now.an given.now.offset * 16 }
{
    (given.an.number() * 4 + given.offset.bits()) * 16
}

/// Writes the set with its key: the suite's identifier, and the wrapped key.
#[tactic(auto, using(lan_base::proofs::Public::pieces))]
fn put_key(given: &Given, suite: &[u8], wrapped: &[u8], into: &mut Vec<u8>)
    requires short { length suite.now + length wrapped.now < 64 }
    requires room { HasRoom into.old (giving_set given.now (suite.now ++ wrapped.now)) }
    ensures { Puts into.old into.new (giving_set given.now (suite.now ++ wrapped.now)) }
{
    let len = 4 + suite.len() + wrapped.len();
    put_header(DISTRIBUTED_SAK, second_of(given), 0, len, into);
    put(into, &given.number.to_be_bytes());
    put(into, suite);
    put(into, wrapped);
    put_padding(len, into);
}

/// Writes the set, where there is one.
pub fn put_given(given: &Option<Given>, into: &mut Vec<u8>)
    requires { HasRoom into.old (given_set given.now) }
    ensures { Puts into.old into.new (given_set given.now) }
{
    if let Some(given) = given {
        match &given.key {
            WrappedKey::Aes128(wrapped) => put_key(given, &[], wrapped, into),
            WrappedKey::Aes256(wrapped) => put_key(given, &GCM_AES_256, wrapped, into),
            WrappedKey::Xpn128(wrapped) => put_key(given, &GCM_AES_XPN_128, wrapped, into),
            WrappedKey::Xpn256(wrapped) => put_key(given, &GCM_AES_XPN_256, wrapped, into),
            WrappedKey::Other => {}
        }
    }
}

/// The length of a body: at least that of a key number, or nothing.
pub fn is_given_len(len: usize) -> bool
    ensures { result ≡ is_given_length len }
{
    len == 0 || len >= 4
}

/// The wrapped key of a key of 128 bits, behind the identifier of its suite.
fn short_of(suite: &[u8; 8], key: &[u8]) -> Option<[u8; 24]>
    ensures { Finds (λ x. x) result (wrapped_in suite.now 24 key.now) }
{
    if !key.starts_with(suite) {
        return None;
    }
    <[u8; 24]>::try_from(&key[8..]).ok()
}

/// The wrapped key of a key of 256 bits, behind the identifier of its suite.
fn wide_of(suite: &[u8; 8], key: &[u8]) -> Option<[u8; 40]>
    ensures { Finds (λ x. x) result (wrapped_in suite.now 40 key.now) }
{
    if !key.starts_with(suite) {
        return None;
    }
    <[u8; 40]>::try_from(&key[8..]).ok()
}

/// The key of a suite with an identifier.
fn of_suites(key: &[u8]) -> WrappedKey
    ensures { result ≡ of_suites (wrapped_in gcm_aes_256 40 key.now) (wrapped_in gcm_aes_xpn_128 24 key.now)
        (wrapped_in gcm_aes_xpn_256 40 key.now) }
{
    if let Some(wrapped) = wide_of(&GCM_AES_256, key) {
        return WrappedKey::Aes256(wrapped);
    }
    if let Some(wrapped) = short_of(&GCM_AES_XPN_128, key) {
        return WrappedKey::Xpn128(wrapped);
    }
    match wide_of(&GCM_AES_XPN_256, key) {
        Some(wrapped) => WrappedKey::Xpn256(wrapped),
        None => WrappedKey::Other,
    }
}

/// The key behind the key number.
fn key_of(key: &[u8]) -> WrappedKey
    ensures { result ≡ key_in key.now }
{
    if let Ok(wrapped) = <[u8; 24]>::try_from(key) {
        return WrappedKey::Aes128(wrapped);
    }
    of_suites(key)
}

/// The key of a set: none where there is no set, or an empty one.
#[tactic(auto, unfolding(crate::specs::Fields::given_in))]
pub fn given_of(set: Option<ParameterSet<'_>>) -> Option<Given>
    ensures { result ≡ given_in (seen set.entry) }
{
    let set = set?;
    let (number, key) = read_number(set.body)?;
    Some(Given {
        an: an_of(set.second / 64),
        offset: offset_of(set.second / 16),
        number,
        key: key_of(key),
    })
}
