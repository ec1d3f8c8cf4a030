//! The words after the program's name.

ghost use Rattle.std.specs.Prelude.{◌≡◌, ◌≢◌, ◌⊎◌, Err, IfOk, [], false, map, option_and_then, string_bytes};
ghost use Rattle.clap.specs.Words.{app_of, fault_of, found_of, kind_of, rows_of, rule_of, subcommand_of, subcommand_rows_of};
ghost use Rattle.clap.specs.declared.error.kind.ErrorKind.TheVariants as kinds;
ghost use Rattle.rollover_program.specs.Words.{IsUsage, Orders, asks_in, command, flag, is_given, number, order_by};

use capture_audit::Asks;
use clap::error::ErrorKind;
use clap::{Arg, ArgAction, ArgMatches, Command, Error};
use std::alloc::{AllocError, Global};

/// What the words order.
#[derive(Clone, Copy, Debug, PartialEq, Eq)]
pub enum Order {
    /// A trace is performed, for its transcript or for its summary line.
    Run { summary: bool },
    /// The trace of a number is written.
    Make { number: u32 },
    /// The trace of a number is performed, for its summary line.
    Try { number: u32 },
    /// A transcript is judged.
    Check,
    /// The file of a transcript's frames is written.
    Capture,
    /// Each packet of a file of captured packets is told.
    Dissect,
    /// A trace of two groups is performed, for its transcript.
    Roll,
    /// The picture of a transcript's keys is written.
    Draw,
    /// A capture is judged with its keys, as is asked for, for the report or for the picture.
    Audit { asks: Asks, draws: bool },
}

/// The greatest number of which a trace is made.
const GREATEST_NUMBER: i64 = 9999;

/// Why the words order nothing.
#[derive(Clone, Copy, Debug, PartialEq, Eq)]
pub enum Refusal {
    /// They are no command.
    Usage,
    /// Memory ran out.
    Memory,
}

impl From<AllocError> for Refusal {
    ghost use Rattle.rollover_program.specs.declared.words.Refusal.TheVariants as refusals;

    ghost from_gives = { λ _ r. r ≡ refusals.Memory };

    fn from(_: AllocError) -> Refusal {
        Refusal::Memory
    }
}

/// Reads the words after the program's name.
pub fn read_order(alloc: Global, words: &[String]) -> Result<Order, Refusal>
    ensures ok { IfOk result (λ order. Orders (map string_bytes words.now) order) }
    ensures usage { result ≡ Err Refusal.Usage → IsUsage (map string_bytes words.now) }
    ensures refused { IsUsage (map string_bytes words.now)
        → (result ≡ Err Refusal.Usage) ⊎ (result ≡ Err Refusal.Memory) }
{
    let matches = matches(alloc, words)?;
    order_of(&matches).ok_or(Refusal::Usage)
}

/// What clap makes of the words after the program's name.
pub fn matches<'a>(alloc: Global, words: &'a [String]) -> Result<ArgMatches<'a>, Refusal>
    ensures taken { IfOk result (λ _. fault_of command (map string_bytes words.now) ≡ []) }
    ensures rows { IfOk result (λ matches. subcommand_rows_of matches
        ≡ subcommand_of command (map string_bytes words.now)) }
    ensures usage { result ≡ Err Refusal.Usage → IsUsage (map string_bytes words.now) }
{
    match command(alloc)?.try_get_matches_from(words) {
        Ok(matches) => Ok(matches),
        Err(error) => Err(refusal_of(&error)),
    }
}

/// The one command: `run [--summary]`, `make N`, `try N`, `check`, `capture`, `dissect`, `roll`,
/// `draw` or `audit [--packets] [--strict] [--keys] [--draw] [KEYS [CAPTURE]]`.
fn command<'a>(alloc: Global) -> Result<Command<'a>, AllocError>
    ensures { IfOk result (λ r. app_of r ≡ command) }
{
    let audit = Command::new(alloc, "audit")
        .arg(flag(alloc, "packets"))?
        .arg(flag(alloc, "strict"))?
        .arg(flag(alloc, "keys"))?
        .arg(flag(alloc, "draw"))?
        .arg(Arg::new(alloc, "KEYS"))?
        .arg(Arg::new(alloc, "CAPTURE"))?;
    let rollover = Command::new(alloc, "rollover")
        .no_binary_name(true)
        .disable_help_flag(true)
        .disable_help_subcommand(true)
        .disable_version_flag(true)
        .subcommand_required(true);
    rollover
        .subcommand(Command::new(alloc, "run").arg(flag(alloc, "summary"))?)?
        .subcommand(Command::new(alloc, "make").arg(number(alloc))?)?
        .subcommand(Command::new(alloc, "try").arg(number(alloc))?)?
        .subcommand(Command::new(alloc, "check"))?
        .subcommand(Command::new(alloc, "capture"))?
        .subcommand(Command::new(alloc, "dissect"))?
        .subcommand(Command::new(alloc, "roll"))?
        .subcommand(Command::new(alloc, "draw"))?
        .subcommand(audit)
}

/// A flag, of this name behind two hyphens.
fn flag<'a>(alloc: Global, name: &'a str) -> Arg<'a>
    ensures rule { rule_of result ≡ flag name.now }
    ensures local { result.global ≡ false }
{
    Arg::new(alloc, name).long(name).action(ArgAction::SetTrue)
}

/// A number from 1 to the greatest.
fn number<'a>(alloc: Global) -> Arg<'a>
    ensures rule { rule_of result ≡ number }
    ensures local { result.global ≡ false }
{
    Arg::new(alloc, "N")
        .value_parser(clap::value_parser!(u32).range(1..=GREATEST_NUMBER))
        .required(true)
}

/// What the matches of a command order.
fn order_of(matches: &ArgMatches<'_>) -> Option<Order>
    ensures { result
        ≡ option_and_then (λ p. order_by p.0 p.1) (subcommand_rows_of matches.now) }
{
    let (name, arguments) = matches.subcommand()?;
    match name {
        "run" => Some(Order::Run {
            summary: is_given(arguments, "summary"),
        }),
        "make" => Some(Order::Make {
            number: arguments.get_one("N")?,
        }),
        "try" => Some(Order::Try {
            number: arguments.get_one("N")?,
        }),
        "check" => Some(Order::Check),
        "capture" => Some(Order::Capture),
        "dissect" => Some(Order::Dissect),
        "roll" => Some(Order::Roll),
        "draw" => Some(Order::Draw),
        "audit" => Some(Order::Audit {
            asks: asks_of(arguments),
            draws: is_given(arguments, "draw"),
        }),
        _ => None,
    }
}

/// What `audit` is asked for.
fn asks_of(arguments: &ArgMatches<'_>) -> Asks
    ensures { result ≡ asks_in (rows_of (found_of arguments.now)) }
{
    Asks {
        shows: is_given(arguments, "packets"),
        strict: is_given(arguments, "strict"),
        keys: is_given(arguments, "keys"),
    }
}

/// Whether the flag of this name was given.
fn is_given(arguments: &ArgMatches<'_>, name: &str) -> bool
    ensures { result ≡ is_given name.now (rows_of (found_of arguments.now)) }
{
    // No clause of `get_flag` speaks of a text that is neither `true` nor `false`.
    arguments.get_one(name).unwrap_or(false)
}

/// Why words that clap does not take order nothing.
fn refusal_of(error: &Error) -> Refusal
    ensures memory { kind_of error.now ≡ kinds.OutOfMemory → result ≡ Refusal.Memory }
    ensures usage { kind_of error.now ≢ kinds.OutOfMemory → result ≡ Refusal.Usage }
{
    match error.kind() {
        ErrorKind::OutOfMemory => Refusal::Memory,
        _ => Refusal::Usage,
    }
}
