//! Supplies of draws, beside published and listed values.

use lan_base::{Blocks, ChaChaDraws, CountDraws, Draws, ListDraws};
use std::alloc::Global;
use std::process::Abort;

/// RFC 8439, A.1, its first two vectors: the key of zeros, blocks 0 and 1, of which the second's
/// first four words are the fifth draw.
const KEY_STREAM: [[u8; 16]; 5] = [
    *b"\x76\xb8\xe0\xad\xa0\xf1\x3d\x90\x40\x5d\x6a\xe5\x53\x86\xbd\x28",
    *b"\xbd\xd2\x19\xb8\xa0\x8d\xed\x1a\xa8\x36\xef\xcc\x8b\x77\x0d\xc7",
    *b"\xda\x41\x59\x7c\x51\x57\x48\x8d\x77\x24\xe0\x3f\xb8\xd8\x4a\x37",
    *b"\x6a\x43\xb8\xf4\x15\x18\xa1\x1c\xc3\x87\xb6\x69\xb2\xee\x65\x86",
    *b"\x9f\x07\xe7\xbe\x55\x51\x38\x7a\x98\xba\x97\x7c\x73\x2d\x08\x0d",
];

/// A key of the octets 0 to 31, and what OpenSSL's ChaCha20 makes of it, with a counter and a nonce of
/// zeros.
const KEY: [u8; 32] = *b"\x00\x01\x02\x03\x04\x05\x06\x07\x08\x09\x0a\x0b\x0c\x0d\x0e\x0f\
\x10\x11\x12\x13\x14\x15\x16\x17\x18\x19\x1a\x1b\x1c\x1d\x1e\x1f";

const STREAM_BY_KEY: [[u8; 16]; 2] = [
    *b"\x39\xfd\x2b\x7d\xd9\xc5\x19\x6a\x8d\xbd\x03\x77\xb8\xdc\x4a\x49",
    *b"\x8a\x35\xd8\x6f\xbc\xde\x6a\xcc\xb2\xcc\x7d\x4c\xd8\xea\x24\x92",
];

/// The first numbers, big-endian, as the trace format says.
const COUNTED: [[u8; 16]; 2] = [
    [0, 0, 0, 0, 0, 0, 0, 0, 0, 0, 0, 0, 0, 0, 0, 1],
    [0, 0, 0, 0, 0, 0, 0, 0, 0, 0, 0, 0, 0, 0, 0, 2],
];

/// Three blocks.
const LISTED: [[u8; 16]; 3] = [[7; 16], [5; 16], [9; 16]];

/// These are the first draws of a supply.
fn draws<D: Draws>(rt: &impl Abort, supply: &mut D, wants: &[[u8; 16]]) {
    for want in wants {
        assert_eq!(rt; supply.draw(), Some(*want));
    }
}

/// The three blocks, of which one is listed first and the others behind it.
fn listed(rt: &impl Abort, alloc: Global) -> Blocks {
    let mut values = Blocks::new(alloc);
    values.push(LISTED[0]).expect(rt, "memory");
    values.extend(&LISTED[1..]).expect(rt, "memory");
    values
}

#[test]
fn supplies_draw(rt: HostRuntime) {
    draws(&rt, &mut CountDraws::new(), &COUNTED);
    draws(&rt, &mut ChaChaDraws::new(&[0; 32]), &KEY_STREAM);
    draws(&rt, &mut ChaChaDraws::new(&KEY), &STREAM_BY_KEY);
    let mut list = ListDraws::of(listed(&rt, rt.alloc()));
    draws(&rt, &mut list, &LISTED);
    assert_eq!(rt; list.draw(), None);
    assert_eq!(rt; list.draw(), None);
}
