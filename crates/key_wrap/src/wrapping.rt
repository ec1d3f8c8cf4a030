//! Wrapping and unwrapping (RFC 3394, 2.2.1 and 2.2.2).

ghost use Rattle.std.specs.Prelude.{◌≡◌, ◌≢◌, ◌↔◌, ◌≤◌, ◌+◌, ◌-◌, ◌*◌, ◌/◌, List, ℕ, length, drop, IfSome, IsNone, IsTrue};
ghost use Rattle.aes_block.specs.Aes.{IsOctets};
ghost use Rattle.key_wrap.specs.Wrap.{initial_value, steps, wrapped};

use crate::state::{step, undo_step};
use aes_block::Key;

/// The initial value of A (RFC 3394, 2.2.3.1).
const INITIAL: u64 = 0xa6a6_a6a6_a6a6_a6a6;

/// Wraps a key of 128 bits under a key encrypting key (RFC 3394, 2.2.1).
pub fn wrap(kek: &Key, sak: &[u8; 16]) -> [u8; 24]
    ensures { result ≡ wrapped kek.now sak.now }
{
    let mut state = [0; 24];
    wrap_into(kek, sak, &mut state);
    state
}

/// Wraps a key of 256 bits under a key encrypting key (RFC 3394, 2.2.1).
pub fn wrap256(kek: &Key, sak: &[u8; 32]) -> [u8; 40]
    ensures { result ≡ wrapped kek.now sak.now }
{
    let mut state = [0; 40];
    wrap_into(kek, sak, &mut state);
    state
}

/// The key of 128 bits whose wrap this is (RFC 3394, 2.2.2), and `None` where no key has this wrap.
pub fn unwrap(kek: &Key, octets: &[u8; 24]) -> Option<[u8; 16]>
    ensures some { IfSome result (λ sak. wrapped kek.now sak ≡ octets.now) }
    ensures only { (sak : List ℕ) → IsOctets 16 sak → wrapped kek.now sak ≡ octets.now
        → result ≡ Some sak }
    ensures none { IsNone result
        ↔ ((sak : List ℕ) → IsOctets 16 sak → wrapped kek.now sak ≢ octets.now) }
{
    let mut state = *octets;
    if !is_undone(kek, &mut state) {
        return None;
    }
    Some(key_of(&state[8..]))
}

/// The key of 256 bits whose wrap this is (RFC 3394, 2.2.2), and `None` where no key has this wrap.
pub fn unwrap256(kek: &Key, octets: &[u8; 40]) -> Option<[u8; 32]>
    ensures some { IfSome result (λ sak. wrapped kek.now sak ≡ octets.now) }
    ensures only { (sak : List ℕ) → IsOctets 32 sak → wrapped kek.now sak ≡ octets.now
        → result ≡ Some sak }
    ensures none { IsNone result
        ↔ ((sak : List ℕ) → IsOctets 32 sak → wrapped kek.now sak ≢ octets.now) }
{
    let mut state = *octets;
    if !is_undone(kek, &mut state) {
        return None;
    }
    Some(key_of(&state[8..]))
}

/// Puts the wrap of a key of whole registers into a state of its length.
fn wrap_into(kek: &Key, sak: &[u8], state: &mut [u8])
    requires registers { 8 ≤ length sak.now }
    requires room { length state.old ≡ 8 + length sak.now }
    ensures { state.new ≡ wrapped kek.now sak.now }
{
    state[..8].copy_from_slice(&INITIAL.to_be_bytes());
    state[8..].copy_from_slice(sak);
    take_steps(kek, state, step_count(sak.len()));
}

/// Undoes the wrapping of a state, and answers whether A is then the initial value.
fn is_undone(kek: &Key, state: &mut [u8]) -> bool
    requires { 16 ≤ length state.old }
    ensures len { length state.new ≡ length state.old }
    ensures wrap { IsTrue result → wrapped kek.now (drop 8 state.new) ≡ state.old }
    ensures only { (sak : List ℕ) (n : ℕ) → length state.old ≡ 8 + n → IsOctets n sak
        → wrapped kek.now sak ≡ state.old → (IsTrue result) × (drop 8 state.new ≡ sak) }
{
    undo_steps(kek, state, step_count(state.len() - 8));
    is_initial(&state[..8])
}

/// The registers as the key that was wrapped.
fn key_of<const N: usize>(registers: &[u8]) -> [u8; N]
    requires { length registers.now ≡ N }
    ensures value { result ≡ registers.now }
    ensures octets { IsOctets N result }
{
    let mut key = [0; N];
    key.copy_from_slice(registers);
    key
}

/// Whether eight octets are the initial value (RFC 3394, 2.2.3.1).
fn is_initial(octets: &[u8]) -> bool
    requires { length octets.now ≡ 8 }
    ensures { IsTrue result ↔ (octets.now ≡ initial_value) }
{
    let mut first = [0; 8];
    first.copy_from_slice(octets);
    u64::from_be_bytes(first) == INITIAL
}

/// How many steps registers of so many octets take: six for each.
fn step_count(len: usize) -> u64
    ensures { result ≡ 6 * (len / 8) }
{
    6 * (len / 8) as u64
}

/// Takes the first `count` steps of wrapping, in their order.
fn take_steps(kek: &Key, state: &mut [u8], count: u64)
    requires { 16 ≤ length state.old }
    ensures { state.new ≡ steps kek.now state.old count }
{
    for i in 0..count {
        step(kek, state, i + 1);
    }
}

/// Undoes the first `count` steps, the last of them first.
fn undo_steps(kek: &Key, state: &mut [u8], count: u64)
    requires { 16 ≤ length state.old }
    ensures undone { steps kek.now state.new count ≡ state.old }
    ensures only { (start : List ℕ) → IsOctets (length state.old) start
        → steps kek.now start count ≡ state.old → state.new ≡ start }
{
    for i in (0..count).rev() {
        undo_step(kek, state, i + 1);
    }
}
