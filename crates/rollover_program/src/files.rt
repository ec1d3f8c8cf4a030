//! The files that the words name.

ghost use Rattle.std.specs.Prelude.{◌≡◌, IfOk, codes, map, option_map, string_bytes};
ghost use Rattle.rollover_program.specs.Words.{file_of};

use crate::words::{Refusal, matches};
use clap::ArgMatches;
use std::alloc::{AllocError, Global};

/// The files that words name: the one of a key text, and the one of a capture.
#[derive(Clone, Copy, Debug, PartialEq, Eq)]
pub struct Files<'a> {
    pub keys: Option<&'a str>,
    pub capture: Option<&'a str>,
}

/// The files that words name, which come without the program's name: what clap reads of them as KEYS and as
/// CAPTURE of `audit`. Words of another command name none, and neither do words that are none.
pub fn files_of<'a>(alloc: Global, words: &'a [String]) -> Result<Files<'a>, AllocError>
    ensures keys { IfOk result (λ files. option_map (λ name. name.now) files.keys
        ≡ file_of (codes "KEYS") (map string_bytes words.now)) }
    ensures capture { IfOk result (λ files. option_map (λ name. name.now) files.capture
        ≡ file_of (codes "CAPTURE") (map string_bytes words.now)) }
{
    match matches(alloc, words) {
        Ok(matches) => Ok(Files::of(&matches)),
        Err(Refusal::Usage) => Ok(Files::none()),
        Err(Refusal::Memory) => Err(AllocError),
    }
}

impl<'a> Files<'a> {
    ghost use Rattle.std.specs.Prelude.{None, option_and_then};
    ghost use Rattle.clap.specs.Words.{subcommand_rows_of};
    ghost use Rattle.rollover_program.specs.Words.{file_by};

    /// No file.
    fn none() -> Files<'a>
        ensures { result ≡ record { keys = None; capture = None } }
    {
        Files {
            keys: None,
            capture: None,
        }
    }

    /// The files among the arguments of `audit`, where that was entered.
    fn of(matches: &ArgMatches<'a>) -> Files<'a>
        ensures keys { option_map (λ name. name.now) result.keys
            ≡ option_and_then (file_by (codes "KEYS")) (subcommand_rows_of matches.now) }
        ensures capture { option_map (λ name. name.now) result.capture
            ≡ option_and_then (file_by (codes "CAPTURE")) (subcommand_rows_of matches.now) }
    {
        match matches.subcommand_matches("audit") {
            Some(arguments) => Files {
                keys: arguments.get_str("KEYS"),
                capture: arguments.get_str("CAPTURE"),
            },
            None => Files::none(),
        }
    }
}
