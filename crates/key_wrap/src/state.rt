//! One step of the wrapping, and its inverse. The octets of a state are A and then the registers,
//! eight octets each.

ghost use Rattle.std.specs.Prelude.{◌≡◌, ◌≤◌, ◌-◌, ◌++◌, List, ℕ, length, take, drop};
ghost use Rattle.aes_block.specs.Aes.{aes, IsBlock, IsOctets};
ghost use Rattle.key_wrap.specs.Wrap.{numbered, step};

use aes_block::{Key, law_ciphertexts_are_blocks, xored};

/// A step, which is numbered from 1 (RFC 3394, 2.2.1).
pub fn step(kek: &Key, state: &mut [u8], number: u64)
    requires { 16 ≤ length state.old }
    ensures { state.new ≡ step kek.now state.old number }
{
    let block = numbered(kek.encrypt(first_block(state)), number);
    put_first_block(state, &block);
    turn(state);
}

/// The state before a step.
pub fn undo_step(kek: &Key, state: &mut [u8], number: u64)
    requires { 16 ≤ length state.old }
    ensures len { length state.new ≡ length state.old }
    ensures blocks { (text : List ℕ) → IsBlock text → IsBlock (aes kek.now text) }
    ensures undone { step kek.now state.new number ≡ state.old }
    ensures only { (before : List ℕ) → IsOctets (length state.old) before
        → step kek.now before number ≡ state.old → state.new ≡ before }
{
    law_ciphertexts_are_blocks();
    turn_back(state);
    let block = kek.decrypt(numbered(first_block(state), number));
    put_first_block(state, &block);
}

/// The first 16 octets.
fn first_block(state: &[u8]) -> [u8; 16]
    requires { 16 ≤ length state.now }
    ensures { result ≡ take 16 state.now }
{
    let mut block = [0; 16];
    block.copy_from_slice(&state[..16]);
    block
}

/// Puts a block in the place of the first 16 octets.
fn put_first_block(state: &mut [u8], block: &[u8; 16])
    requires { 16 ≤ length state.old }
    ensures { state.new ≡ block.now ++ drop 16 state.old }
{
    state[..16].copy_from_slice(block);
}

/// The number added to the first half of a block (RFC 3394, 2.2.1).
fn numbered(block: [u8; 16], number: u64) -> [u8; 16]
    ensures { result ≡ numbered block number }
{
    let mut added = [0; 16];
    added[..8].copy_from_slice(&number.to_be_bytes());
    xored(&block, &added)
}

/// Moves the first register behind the others.
fn turn(state: &mut [u8])
    requires { 16 ≤ length state.old }
    ensures { state.new ≡ take 8 state.old ++ drop 16 state.old ++ take 8 (drop 8 state.old) }
{
    state[8..].rotate_left(8);
}

/// Moves the last register before the others.
fn turn_back(state: &mut [u8])
    requires { 16 ≤ length state.old }
    ensures { state.new ≡ take 8 state.old ++ drop (length state.old - 8) state.old
        ++ take (length state.old - 16) (drop 8 state.old) }
{
    state[8..].rotate_right(8);
}
