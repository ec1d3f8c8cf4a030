//! The lines of members that were not ready for a key, and of what is told of all fresh frames.

ghost use Rattle.std.specs.Prelude.{◌≡◌, ◌++◌, ◌+◌, OnOk, fold, min};
ghost use Rattle.audit_report.specs.Readiness.{most_counted, rollover_line, sums_of, unready_line, unready_lines};

use crate::lines::{number, put_line};
use crate::uses::TimedUse;
use rollover_notes::Unready;
use std::alloc::AllocError;
use trace_text::Word;

/// Appends what is told of each key and member that was not ready for it. An `Err` may leave a front of it.
pub fn put_unready(unready: &[Unready], into: &mut Vec<u8>) -> Result<(), AllocError>
    ensures { OnOk result (into.new.items ≡ into.old.items ++ unready_lines unready.now) }
{
    for each in unready {
        put_one_unready(each, into)?;
    }
    Ok(())
}

/// Appends the line of one.
fn put_one_unready(each: &Unready, into: &mut Vec<u8>) -> Result<(), AllocError>
    ensures { OnOk result (into.new.items ≡ into.old.items ++ unready_line each.now) }
{
    put_line(
        into,
        b"unready",
        &[
            number(each.key),
            number(each.group),
            Word::Octets(&each.mi.0),
            Word::Text(b"early"),
            number(each.early),
            number(each.first_early),
            Word::Text(b"joining"),
            number(each.joining),
            number(each.first_joining),
            Word::Text(b"reported"),
            number(each.reported),
        ],
    )
}

/// To how many pairs of a frame and a member a frame came early or joining, and how many frames came
/// late, as far as they can be counted.
#[derive(Clone, Copy, Debug, PartialEq, Eq)]
pub struct Sums {
    pub early: u64,
    pub joining: u64,
    pub late: u64,
}

impl Sums {
    /// Of what is told of each key and member, and of each key and sender.
    pub fn of(unready: &[Unready], uses: &[TimedUse]) -> Sums
        ensures { result ≡ sums_of unready.now uses.now }
    {
        Sums {
            early: early(unready),
            joining: joining(unready),
            late: late(uses),
        }
    }
}

/// Appends how many changes of a sender to another key there are, and the sums.
pub fn put_rollover(changes: u64, sums: &Sums, into: &mut Vec<u8>) -> Result<(), AllocError>
    ensures { OnOk result (into.new.items ≡ into.old.items ++ rollover_line changes sums.now) }
{
    put_line(
        into,
        b"rollover",
        &[
            Word::Text(b"changes"),
            Word::Number(changes),
            Word::Text(b"early"),
            Word::Number(sums.early),
            Word::Text(b"joining"),
            Word::Number(sums.joining),
            Word::Text(b"late"),
            Word::Number(sums.late),
        ],
    )
}

/// How many frames came early.
fn early(unready: &[Unready]) -> u64
    ensures { result ≡ fold (λ n u. min (n + u.early) most_counted) 0 unready.now }
{
    unready
        .iter()
        .fold(0, |n: u64, each| n.saturating_add(u64::from(each.early)))
}

/// How many came joining.
fn joining(unready: &[Unready]) -> u64
    ensures { result ≡ fold (λ n u. min (n + u.joining) most_counted) 0 unready.now }
{
    unready.iter().fold(0, |n: u64, each| n.saturating_add(u64::from(each.joining)))
}

/// How many came late.
fn late(uses: &[TimedUse]) -> u64
    ensures { result ≡ fold (λ n u. min (n + u.late) most_counted) 0 uses.now }
{
    uses.iter()
        .fold(0, |n: u64, each| n.saturating_add(u64::from(each.late)))
}
