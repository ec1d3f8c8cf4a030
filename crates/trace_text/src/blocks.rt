//! The listed draws of a line.

ghost use Rattle.std.specs.Prelude.{◌≡◌, Ok, IsOk};
ghost use Rattle.trace_text.specs.Words.{words_of};
ghost use Rattle.trace_text.specs.Reading.{blocks_of};
ghost use Rattle.trace_text.specs.Answering.{Answers, checked};

use crate::fault::{LineError, TextFault};
use crate::kinds::read_array;
use crate::words::next_word;
use lan_base::Blocks;
use std::alloc::Global;

/// Whether each word of a line spells 16 octets.
pub fn expect_blocks(line: &[u8]) -> Result<(), TextFault>
    ensures { result ≡ checked (blocks_of (words_of line.now)) }
{
    let mut left = line;
    while let Some((word, rest)) = next_word(left) {
        read_array::<16>(word)?;
        left = rest;
    }
    Ok(())
}

/// The blocks of 16 octets that the words of a line spell, where each spells one.
pub fn read_blocks(alloc: Global, line: &[u8]) -> Result<Blocks, LineError>
    requires { IsOk (blocks_of (words_of line.now)) }
    ensures { Answers result (blocks_of (words_of line.now)) }
{
    let mut blocks = Blocks::new(alloc);
    let mut left = line;
    while let Some((word, rest)) = next_word(left) {
        blocks.push(read_array(word)?)?;
        left = rest;
    }
    Ok(blocks)
}
