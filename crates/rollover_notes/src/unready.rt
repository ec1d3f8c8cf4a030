//! What is told of keys and members to which fresh frames came too early.

ghost use Rattle.std.specs.Prelude.{◌≡◌, IfOk};
ghost use Rattle.rollover_notes.specs.inside.Listing.{IsListing, unready_at};

use crate::counts::Counts;
use crate::reports::Reports;
use crate::saying::Member;
use lan_base::Mi;
use std::alloc::{AllocError, Global};
use std::collections::BTreeMap;

/// What is told of a key and a member to which fresh frames under it came too early.
#[derive(Clone, Copy, Debug, PartialEq, Eq)]
pub struct Unready {
    /// The key, counted from 1.
    pub key: u32,
    /// The member's group, counted from 1.
    pub group: u32,
    /// The member's identifier.
    pub mi: Mi,
    /// How many frames came early: the member had not reported the key, but one that was first given
    /// before it.
    pub early: u32,
    /// The packet of the first of them, 0 for none.
    pub first_early: u32,
    /// How many came joining: it had reported neither.
    pub joining: u32,
    /// The packet of the first of them, 0 for none.
    pub first_joining: u32,
    /// The first packet in which the member reported the key, 0 for none.
    pub reported: u32,
}

/// What is told of each key and member that has counts, in their order.
pub fn list_unready(
    alloc: Global,
    counts: &BTreeMap<(u32, Member), Counts>,
    reports: &Reports,
) -> Result<Vec<Unready>, AllocError>
    ensures { IfOk result (λ us. IsListing reports.now.packets.entries counts.now.entries us.items) }
{
    let mut told = Vec::new(alloc);
    for (at, counts) in counts {
        told.push(unready_at(reports, at, counts))?;
    }
    Ok(told)
}

/// What is told of one.
fn unready_at(reports: &Reports, at: &(u32, Member), counts: &Counts) -> Unready
    ensures { result ≡ unready_at reports.now.packets.entries (at.now, counts.now) }
{
    Unready {
        key: at.0,
        group: at.1.0,
        mi: at.1.1,
        early: counts.early,
        first_early: counts.first_early,
        joining: counts.joining,
        first_joining: counts.first_joining,
        reported: reports.packet(at.1, at.0).unwrap_or(0),
    }
}
