//! The work of each test. The result is 16 octets, all zero before the work is done once.

ghost use Rattle.std.specs.Prelude.{◌≡◌, ◌≤◌, IfOk, IsOk};
ghost use Rattle.workbench_cases.specs.Work.{block_after, key, long_key, stepped, tag_after, value_after};
ghost use Rattle.workbench_cases.specs.Results.{IsOfCipher, last_result};

use crate::ciphers::frames::{last_end, last_frame_tag};
use crate::ciphers::named::{Frame, Test};
use aes_block::Key;
use aes_cmac::cmac;
use gcm_core::{GcmKey, seal};
use std::alloc::{AllocError, Global};

/// The IV before the first tag.
const FIRST_IV: [u8; 12] = [2, 0, 0, 0, 0, 10, 0, 1, 0, 0, 0, 1];

/// The result after the work of a test was done so many times. Protected frames alone take memory.
pub fn last_result(alloc: Global, test: Test, count: u32) -> Result<[u8; 16], AllocError>
    ensures value { IfOk result (λ value. value ≡ last_result test count) }
    ensures prompt { IsOfCipher test → IsOk result }
{
    match test {
        Test::Block => Ok(last_block(&test_key(), count)),
        Test::LongKeyBlock => Ok(last_block(&long_test_key(), count)),
        Test::Cmac => Ok(last_value(count)),
        Test::Gcm(Frame::Octets64) => Ok(last_tag::<52>(&GcmKey::of(test_key()), count)),
        Test::Gcm(Frame::Octets512) => Ok(last_tag::<500>(&GcmKey::of(test_key()), count)),
        Test::Gcm(Frame::Octets1500) => Ok(last_tag::<1488>(&GcmKey::of(test_key()), count)),
        Test::LongKeyGcm => Ok(last_tag::<1488>(&GcmKey::of(long_test_key()), count)),
        Test::Protect => last_frame_tag(alloc, count),
        Test::Receive => last_end(alloc, count),
    }
}

/// The key of 128 bits.
pub(crate) fn test_key() -> Key
    ensures { result ≡ key }
{
    Key::k128(&stepped::<16>(1))
}

/// The key of 256 bits.
fn long_test_key() -> Key
    ensures { result ≡ long_key }
{
    Key::k256(&stepped::<32>(1))
}

/// Octets that begin from zero and rise by a step, modulo 256.
pub(crate) fn stepped<const N: usize>(step: u8) -> [u8; N]
    ensures { result ≡ stepped step N }
{
    let mut octets = [0; N];
    let mut next = 0u8;
    for octet in &mut octets {
        *octet = next;
        next = next.wrapping_add(step);
    }
    octets
}

/// The block, which becomes its ciphertext each time.
fn last_block(key: &Key, count: u32) -> [u8; 16]
    ensures { result ≡ block_after key.now count }
{
    let mut block = [0; 16];
    for _done in 0..count {
        let next = key.encrypt(block);
        block = next;
    }
    block
}

/// The CMAC of 150 octets, of which the first is changed by each value.
fn last_value(count: u32) -> [u8; 16]
    ensures { result ≡ value_after count }
{
    let key = test_key();
    let mut message = stepped::<150>(7);
    let mut value = [0; 16];
    for _done in 0..count {
        value = cmac(&key, &message);
        message[0] ^= value[0];
    }
    value
}

/// The tag of a text with 28 octets of additional data, of which the first is changed by each tag,
/// sealed under the next IV each time.
fn last_tag<const N: usize>(key: &GcmKey, count: u32) -> [u8; 16]
    requires { N ≤ 65536 }
    ensures { result ≡ tag_after key.now N count }
{
    let text = stepped::<N>(7);
    let mut extra = stepped::<28>(1);
    let mut iv = FIRST_IV;
    let mut tag = [0; 16];
    for _done in 0..count {
        iv[11] = iv[11].wrapping_add(1);
        let mut sealed = text;
        tag = seal(key, iv, &extra, &mut sealed);
        extra[0] ^= tag[0];
    }
    tag
}
