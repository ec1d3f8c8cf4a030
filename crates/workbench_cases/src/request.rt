//! What the words ask for.

use crate::ciphers::Test;
use crate::workers::Hands;
use anyhow::{Context, bail};

/// What is said where the words ask for nothing.
pub const USAGE: &str = "\
usage: workbench time TEST COUNT
       workbench addresses OCTET
       workbench claims SEATS
       workbench workers WORKERS FRAMES
       workbench workers loop FRAMES
       workbench merge STATIONS CLAIMS STEPS
       workbench vectors

TEST is aes128_block, aes256_block, cmac_150, gcm_64, gcm_512, gcm_1500, gcm256_1500, protect_1500
or receive_1500. OCTET is a number from 0 to 255. SEATS and WORKERS are numbers from 1 to 8. STATIONS
is a number from 1 to 16. vectors reads lines from standard input.";

/// What is asked for.
#[derive(Clone, Copy)]
pub enum Request {
    /// A test of the ciphers is done so many times.
    Time {
        test: Test,
        count: u32,
    },
    /// Each cipher is done and undone, under keys and on data that are made of an octet.
    Addresses {
        octet: u8,
    },
    /// Ten million packet numbers are claimed, by so many seats.
    Claims {
        seats: u8,
    },
    /// So many frames are protected.
    Workers {
        hands: Hands,
        frames: u32,
    },
    /// The logs of so many claims are merged with so many steps of control.
    Merge {
        stations: u8,
        claims: u32,
        steps: u32,
    },
    /// Vectors are answered, line by line.
    Vectors,
}

impl Request {
    /// What the words after the program's name ask for. Other words are an error.
    pub fn of(words: &[String]) -> anyhow::Result<Request> {
        let Some((verb, others)) = words.split_first() else {
            bail!("there are no words");
        };
        match (verb.as_str(), others) {
            ("time", [test, count]) => time(test, count),
            ("addresses", [octet]) => addresses(octet),
            ("claims", [seats]) => claims(seats),
            ("workers", [hands, frames]) => workers(hands, frames),
            ("merge", [stations, claims, steps]) => merge(stations, claims, steps),
            ("vectors", []) => Ok(Request::Vectors),
            _ => bail!("these words ask for nothing"),
        }
    }
}

/// A test, and how many times it is done.
fn time(test: &str, count: &str) -> anyhow::Result<Request> {
    Ok(Request::Time {
        test: test.parse()?,
        count: count
            .parse()
            .context("COUNT is a number from 0 to 4294967295")?,
    })
}

/// The octet of keys and data.
fn addresses(octet: &str) -> anyhow::Result<Request> {
    Ok(Request::Addresses {
        octet: octet.parse().context("OCTET is a number from 0 to 255")?,
    })
}

/// How many seats claim.
fn claims(seats: &str) -> anyhow::Result<Request> {
    match seats.parse() {
        Ok(seats @ 1..=8) => Ok(Request::Claims { seats }),
        _ => bail!("SEATS is a number from 1 to 8"),
    }
}

/// Who protects, and how many frames.
fn workers(hands: &str, frames: &str) -> anyhow::Result<Request> {
    Ok(Request::Workers {
        hands: hands.parse()?,
        frames: frames
            .parse()
            .context("FRAMES is a number from 0 to 4294967295")?,
    })
}

/// How many stations, claims and steps.
fn merge(stations: &str, claims: &str, steps: &str) -> anyhow::Result<Request> {
    let Ok(stations @ 1..=16) = stations.parse() else {
        bail!("STATIONS is a number from 1 to 16");
    };
    Ok(Request::Merge {
        stations,
        claims: claims
            .parse()
            .context("CLAIMS is a number from 0 to 4294967295")?,
        steps: steps
            .parse()
            .context("STEPS is a number from 0 to 4294967295")?,
    })
}
