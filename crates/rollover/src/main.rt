//! The program `rollover`: standard input, standard output, the files that the words name, and the
//! words, for `rollover_program`.
#![tactic(auto)]

mod late_file;

ghost use Rattle.std.specs.Prelude.{◌≡◌, ◌≢◌};
ghost use Rattle.std.specs.IoError.{error_kind};
ghost use Rattle.std.specs.declared.io.ErrorKind.TheVariants.{InvalidData};

use crate::late_file::LateFile;
use lan_base::{Source, StdSink, StdSource};
use rollover_program::{AnyGate, Joined, Status, files_of, rollover};
use std::env::Args;
use std::io::ErrorKind;
use std::process::ExitCode;
use std::thread::Threads;
use std::{env, io};

/// What the program was called with.
fn args(rt: &HostRuntime) -> Result<Args, Status> {
    match env::args(rt) {
        Ok(args) => Ok(args),
        Err(error) => Err(status_without_words(&error)),
    }
}

/// The status where words can't be had: one that is not UTF-8 is no command, and else memory ran out.
fn status_without_words(error: &io::Error) -> Status
    ensures usage { error_kind error.now ≡ InvalidData → result ≡ Status.Usage }
    ensures memory { error_kind error.now ≢ InvalidData → result ≡ Status.Memory }
{
    match error.kind() {
        ErrorKind::InvalidData => Status::Usage,
        _ => Status::Memory,
    }
}

/// The words after the program's name.
fn words(rt: &HostRuntime) -> Result<Vec<String>, Status> {
    let mut words = Vec::new(rt.alloc());
    for word in args(rt)?.skip(1) {
        if words.push(word).is_err() {
            return Err(Status::Memory);
        }
    }
    Ok(words)
}

/// Carries out what words order, on a source.
fn carry_out<T: Threads + Sync, S: Source>(
    rt: &HostRuntime,
    threads: &T,
    words: &[String],
    source: &mut S,
) -> Status {
    let mut sink = StdSink::new(io::writer(rt));
    let gate = AnyGate::Open;
    rollover(threads, rt.alloc(), words, source, &mut sink, &gate)
}

/// Carries out what words order, on a file of keys and on a capture.
fn carry_out_with<T: Threads + Sync, S: Source + Drop>(
    rt: &HostRuntime,
    threads: &T,
    words: &[String],
    keys: &str,
    capture: S,
) -> Status {
    let keys = StdSource::new(LateFile::new(rt, keys));
    carry_out(rt, threads, words, &mut Joined::new(keys, capture))
}

/// Carries out what words order, on the files that they name, and else on standard input.
fn perform<T: Threads + Sync>(rt: &HostRuntime, threads: &T, words: &[String]) -> Status {
    let Ok(files) = files_of(rt.alloc(), words) else {
        return Status::Memory;
    };
    let mut input = StdSource::new(rt.reader());
    match (files.keys, files.capture) {
        (None, _) => carry_out(rt, threads, words, &mut input),
        (Some(keys), None) => carry_out_with(rt, threads, words, keys, input),
        (Some(keys), Some(capture)) => {
            let capture = StdSource::new(LateFile::new(rt, capture));
            carry_out_with(rt, threads, words, keys, capture)
        }
    }
}

/// Ends with the status of the call, and tells on standard error why it is none of success.
fn main(rt: HostRuntime) -> ExitCode {
    let status = match words(&rt) {
        Ok(words) => perform(&rt, &rt, &words),
        Err(status) => status,
    };
    if status != Status::Done {
        // Where standard error fails too, the number is all that is left to tell.
        let _ = eprintln!(rt; "rollover: {status}");
    }
    ExitCode::from(status.number())
}
