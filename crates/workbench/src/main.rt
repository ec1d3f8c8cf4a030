//! The program `workbench`: the command words, standard input and standard output, for
//! `workbench_cases`.
#![tactic(auto)]

use std::io::BufReader;
use std::{env, io};
use workbench_cases::workbench;

/// The words after the program's name.
fn words(rt: &HostRuntime) -> anyhow::Result<Vec<String>> {
    let mut words = Vec::new(rt.alloc());
    for word in env::args(rt)?.skip(1) {
        words.push(word)?;
    }
    Ok(words)
}

/// Does what the words ask for. An error ends with status 1.
fn main(rt: HostRuntime) -> anyhow::Result<()> {
    let words = words(&rt)?;
    let reader = BufReader::new(rt.alloc(), rt.reader())?;
    workbench(&rt, rt.alloc(), &words, reader, &mut io::writer(&rt))
}
