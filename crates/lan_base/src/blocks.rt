//! A list of blocks of 16 octets.

ghost use Rattle.std.specs.Prelude.{◌≡◌, ◌++◌, [], ◌∷◌, length, OnOk, OnErr};

use std::alloc::{AllocError, Global};
use std::marker::Model;

/// A list of blocks of 16 octets on the heap. Contracts see it as the list.
#[derive(Debug, Drop)]
pub struct Blocks {
    blocks: Vec<[u8; 16]>,
}

impl Model for Blocks {
    ghost use Rattle.std.specs.Prelude.{ℕ, List};

    ghost Value = { List (List ℕ) };

    ghost view = { λ b. b.blocks.items };
}

impl Blocks {
    /// The empty list, which takes no memory.
    pub fn new(alloc: Global) -> Self
        ensures { result ≡ [] }
    {
        Blocks {
            blocks: Vec::new(alloc),
        }
    }

    /// How many blocks there are.
    pub fn len(&self) -> usize
        ensures { result ≡ length self.now }
    {
        self.blocks.len()
    }

    /// The blocks.
    pub fn as_slice(&self) -> &[[u8; 16]]
        ensures { result.now ≡ self.now }
    {
        self.blocks.as_slice()
    }

    /// Appends a block. An `Err` leaves the list as it was.
    pub fn push(&mut self, block: [u8; 16]) -> Result<(), AllocError>
        ensures ok { OnOk result (self.new ≡ self.old ++ block ∷ []) }
        ensures err { OnErr result (self.new ≡ self.old) }
    {
        self.blocks.push(block)?;
        Ok(())
    }

    /// Appends blocks. An `Err` leaves the list as it was.
    pub fn extend(&mut self, more: &[[u8; 16]]) -> Result<(), AllocError>
        ensures ok { OnOk result (self.new ≡ self.old ++ more.now) }
        ensures err { OnErr result (self.new ≡ self.old) }
    {
        self.blocks.extend_from_slice(more)
    }
}
