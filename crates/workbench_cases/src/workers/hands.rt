//! Who protects the frames.

use anyhow::{Context, bail};
use std::str::FromStr;

/// Who protects the frames.
#[derive(Clone, Copy)]
pub enum Hands {
    /// One loop, in this thread.
    Loop,
    /// So many workers, from 1 to 8, in a thread each.
    Workers(u8),
}

impl FromStr for Hands {
    type Err = anyhow::Error;

    fn from_str(word: &str) -> anyhow::Result<Hands> {
        if word == "loop" {
            return Ok(Hands::Loop);
        }
        let workers: u8 = word
            .parse()
            .context("WORKERS is a number, or the word loop")?;
        if !(1..=8).contains(&workers) {
            bail!("there are from 1 to 8 workers");
        }
        Ok(Hands::Workers(workers))
    }
}
