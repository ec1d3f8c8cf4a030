//! What was asked for is done, and what came of it is written.

use crate::ciphers::{come_back, last_result};
use crate::claims::claimed;
use crate::merging::merge_logs;
use crate::request::{Request, USAGE};
use crate::vectors::answer_lines;
use crate::workers::protected;
use std::alloc::Global;
use std::io::{BufRead, Write};
use std::thread::Threads;
use std::time::Clock;

/// Does what the words after the program's name ask for.
///
/// `time` writes the last value of a test of the ciphers, so that anybody can time it, or count its
/// instructions, beside another implementation. `addresses` writes whether each cipher was undone
/// under keys of an octet, so that the addresses of runs with different octets can be compared.
/// `claims` writes how many packet numbers were claimed, `workers` how many frames were protected,
/// and `merge` how many steps and claims stand in the merged list; the last two write how long that
/// took, too. `vectors` answers each line of the reader. Other words are an error, and standard error
/// then has the usage.
pub fn workbench<R: Threads + Sync + Clock + Eprint, I: BufRead + Drop, W: Write>(
    rt: &R,
    alloc: Global,
    words: &[String],
    reader: I,
    writer: &mut W,
) -> anyhow::Result<()> {
    match Request::of(words) {
        Ok(request) => answer(rt, alloc, request, reader, writer),
        Err(error) => {
            eprintln!(rt; "{USAGE}")?;
            Err(error)
        }
    }
}

/// Does what is asked for.
fn answer<R: Threads + Sync + Clock, I: BufRead + Drop, W: Write>(
    rt: &R,
    alloc: Global,
    request: Request,
    reader: I,
    writer: &mut W,
) -> anyhow::Result<()> {
    match request {
        Request::Time { test, count } => {
            let value = last_result(alloc, test, count)?;
            writeln!(writer, "{}", hex::encode(alloc, value)?)?;
        }
        Request::Addresses { octet } => writeln!(writer, "{}", come_back(octet))?,
        Request::Claims { seats } => writeln!(writer, "{}", claimed(rt, alloc, seats)?)?,
        Request::Workers { hands, frames } => {
            let (count, took) = protected(rt, alloc, hands, frames)?;
            writeln!(writer, "{count} frames, {} us", took.as_micros())?;
        }
        Request::Merge {
            stations,
            claims,
            steps,
        } => {
            let merged = merge_logs(rt, alloc, stations, claims, steps)?;
            let took = merged.took.as_micros();
            writeln!(
                writer,
                "{} steps, {} claims, {took} us",
                merged.steps, merged.claims
            )?;
        }
        Request::Vectors => answer_lines(alloc, reader, writer)?,
    }
    Ok(())
}
