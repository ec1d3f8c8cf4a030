//! What is told of keys that members reported.

ghost use Rattle.std.specs.Prelude.{◌≡◌, IfOk};
ghost use Rattle.rollover_notes.specs.Reported.{report_of};
ghost use Rattle.rollover_notes.specs.inside.Listing.{IsReportListing};

use crate::reports::Reports;
use crate::saying::Member;
use lan_base::Mi;
use std::alloc::{AllocError, Global};

/// What is told of a member and a key that it reported.
#[derive(Clone, Copy, Debug, PartialEq, Eq)]
pub struct Report {
    /// The member's group, counted from 1.
    pub group: u32,
    /// The member's identifier.
    pub mi: Mi,
    /// The key, counted from 1.
    pub key: u32,
    /// The first packet in which the member reported the key.
    pub packet: u32,
}

/// What is told of each member and key that it reported, in their order.
pub fn list_reports(alloc: Global, reports: &Reports) -> Result<Vec<Report>, AllocError>
    ensures { IfOk result (λ rs. IsReportListing reports.now.packets.entries rs.items) }
{
    let mut told = Vec::new(alloc);
    for (at, packet) in &reports.packets {
        told.push(report_of(at, *packet))?;
    }
    Ok(told)
}

/// What is told of one.
fn report_of(at: &(Member, u32), packet: u32) -> Report
    ensures { result ≡ report_of at.now packet }
{
    Report {
        group: at.0.0,
        mi: at.0.1,
        key: at.1,
        packet,
    }
}
