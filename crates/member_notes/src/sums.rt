//! What is told of all members together.

ghost use Rattle.std.specs.Prelude.{◌≡◌, ◌+◌, map, min, fold, IfOk};
ghost use Rattle.std.specs.Set.{distinct_count};
ghost use Rattle.std.specs.Ordering.{eq_by_cmp};
ghost use Rattle.member_notes.specs.Facts.{station_cmp, station_of, sums_of};

use crate::facts::Member;
use lan_base::Sci;
use std::alloc::{AllocError, Global};
use std::collections::BTreeSet;

/// How many members there are, and what is told of all of them, as far as it can be counted.
#[derive(Clone, Copy, Debug, PartialEq, Eq)]
pub struct MemberSums {
    pub members: usize,
    /// How many different pairs there are of a group and an SCI.
    pub scis: usize,
    pub fell: u64,
    pub servers: u64,
    pub returned: u64,
    pub high: u64,
}

impl MemberSums {
    /// Of what is told of each member.
    pub fn of(alloc: Global, members: &[Member]) -> Result<MemberSums, AllocError>
        ensures { IfOk result (λ sums. sums ≡ sums_of members.now) }
    {
        let scis = scis(alloc, members)?;
        Ok(MemberSums {
            members: members.len(),
            scis,
            fell: fell(members),
            servers: servers(members),
            returned: returned(members),
            high: high(members),
        })
    }
}

/// How many different groups and SCIs there are.
fn scis(alloc: Global, members: &[Member]) -> Result<usize, AllocError>
    ensures { IfOk result (λ n. n ≡ distinct_count (eq_by_cmp station_cmp) (map station_of members.now)) }
{
    let mut seen: BTreeSet<(u32, Sci)> = BTreeSet::new(alloc);
    for member in members {
        seen.insert((member.group, member.counts.sci))?;
    }
    Ok(seen.len())
}

/// How many MKPDUs fell behind.
fn fell(members: &[Member]) -> u64
    ensures { result ≡ fold (λ n m. min (n + m.counts.fell.count) 18446744073709551615) 0 members.now }
{
    members.iter().fold(
        0,
        |n: u64, it| n.saturating_add(u64::from(it.counts.fell.count)),
    )
}

/// How many serve beside others.
fn servers(members: &[Member]) -> u64
    ensures { result ≡ fold (λ n m. min (n + m.counts.servers.count) 18446744073709551615) 0 members.now }
{
    members.iter().fold(
        0,
        |n: u64, it| n.saturating_add(u64::from(it.counts.servers.count)),
    )
}

/// How many give a key with a number below one before.
fn returned(members: &[Member]) -> u64
    ensures { result ≡ fold (λ n m. min (n + m.counts.returned.count) 18446744073709551615) 0 members.now }
{
    members.iter().fold(
        0,
        |n: u64, it| n.saturating_add(u64::from(it.counts.returned.count)),
    )
}

/// How many show a key near the end of its packet numbers.
fn high(members: &[Member]) -> u64
    ensures { result ≡ fold (λ n m. min (n + m.counts.high.count) 18446744073709551615) 0 members.now }
{
    members.iter().fold(
        0,
        |n: u64, it| n.saturating_add(u64::from(it.counts.high.count)),
    )
}
