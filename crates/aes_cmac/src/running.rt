//! A message that comes in pieces.

use crate::block::last_block;
use aes_block::{Key, xored};
use std::marker::Model;

/// A CMAC in the making, of a message that comes in pieces.
#[derive(Drop)]
pub struct Running<'a> {
    key: &'a Key,
    /// The chain after the blocks that were enciphered.
    chain: [u8; 16],
    /// The block that comes next, of which `filled` octets are here. It is enciphered when another
    /// octet comes, since the last block is not chained as the others are.
    next: [u8; 16],
    filled: usize,
}

impl<'a> Model for Running<'a> {
    ghost use Rattle.std.specs.Prelude.{◌≤◌, take};
    ghost use Rattle.aes_cmac.specs.Progress.{Progress};

    ghost Value = { Progress };

    ghost view = { λ r. record { key = r.key.now; chain = r.chain; rest = take r.filled r.next } };

    ghost invariant = { λ r. r.filled ≤ 16 };
}

impl<'a> Running<'a> {
    ghost use Rattle.std.specs.Prelude.{◌≡◌, ◌<◌, ◌≤◌, ◌+◌, ◌++◌, List, ℕ, [], length};
    ghost use Rattle.aes_cmac.specs.Cmac.{cmac};
    ghost use Rattle.aes_cmac.specs.Progress.{Holds};

    /// The CMAC under this key of a message of which nothing has come.
    pub fn new(key: &'a Key) -> Running<'a>
        ensures { Holds result key.now [] }
    {
        Running {
            key,
            chain: [0; 16],
            next: [0; 16],
            filled: 0,
        }
    }

    /// Takes the next piece of the message.
    pub fn update(&mut self, piece: &[u8])
        ensures { (key message : List ℕ) → Holds self.old key message
            → Holds self.new key (message ++ piece.now) }
    {
        let (blocks, rest) = piece.as_chunks::<16>();
        for block in blocks {
            self.push(block);
        }
        self.push(rest);
    }

    /// The value of the whole message.
    pub fn finish(self) -> [u8; 16]
        ensures { (key message : List ℕ) → Holds self.entry key message
            → result ≡ cmac key message }
    {
        let last = last_block(self.key, self.next, self.filled);
        self.key.encrypt(xored(&self.chain, &last))
    }

    /// Takes at most a block of the message: what the waiting block has room for, and the rest
    /// behind it.
    fn push(&mut self, part: &[u8])
        requires { length part.now ≤ 16 }
        ensures { (key message : List ℕ) → Holds self.old key message
            → Holds self.new key (message ++ part.now) }
    {
        let room = 16 - self.filled;
        let (front, back) = part.split_at(part.len().min(room));
        self.fill(front);
        if !back.is_empty() {
            self.begin(back);
        }
    }

    /// Puts octets that have room there into the waiting block.
    fn fill(&mut self, part: &[u8])
        requires { length self.old.rest + length part.now ≤ 16 }
        ensures len { length self.new.rest ≡ length self.old.rest + length part.now }
        ensures holds { (key message : List ℕ) → Holds self.old key message
            → Holds self.new key (message ++ part.now) }
    {
        let end = self.filled + part.len();
        self.next[self.filled..end].copy_from_slice(part);
        self.filled = end;
    }

    /// Enciphers the waiting block, which is whole, and begins the next one.
    fn begin(&mut self, part: &[u8])
        requires whole { length self.old.rest ≡ 16 }
        requires some { 0 < length part.now }
        requires room { length part.now ≤ 16 }
        ensures { (key message : List ℕ) → Holds self.old key message
            → Holds self.new key (message ++ part.now) }
    {
        self.chain = self.key.encrypt(xored(&self.chain, &self.next));
        self.next[..part.len()].copy_from_slice(part);
        self.filled = part.len();
    }
}
