//! The lanes of all senders.

use crate::lane::Lane;
use crate::origin::Origin;
use crate::shows::Shows;
use audit_facts::AuditView;
use lan_base::{Mi, Sci};
use member_notes::Member;
use std::alloc::{AllocError, Global};
use std::collections::BTreeMap;

/// By SCI the lane of each sender and of each member, and where the keys are from that they show.
#[derive(Drop)]
pub struct Lanes {
    pub lanes: BTreeMap<Sci, Lane>,
    pub origins: BTreeMap<u32, Origin>,
}

impl Lanes {
    /// Those of a view.
    pub fn of(alloc: Global, view: &AuditView) -> Result<Lanes, AllocError> {
        let scis = scis_of(alloc, view.verdict.members())?;
        let shows = Shows::of(alloc, view, &scis)?;
        let mut lanes = BTreeMap::new(alloc);
        for (member, sci) in &scis {
            reach(alloc, &mut lanes, *sci)?;
            if let Some(lane) = lanes.get_mut(sci) {
                lane.join(member.0, member.1)?;
            }
        }
        lay(alloc, &mut lanes, &shows)?;
        Ok(Lanes {
            lanes,
            origins: shows.origins,
        })
    }
}

/// Under which SCI each member spoke first.
fn scis_of(alloc: Global, members: &[Member]) -> Result<BTreeMap<(u32, Mi), Sci>, AllocError> {
    let mut scis = BTreeMap::new(alloc);
    for member in members {
        scis.insert((member.group, member.mi), member.counts.sci)?;
    }
    Ok(scis)
}

/// A sender has a lane from now on.
fn reach(alloc: Global, lanes: &mut BTreeMap<Sci, Lane>, sci: Sci) -> Result<(), AllocError> {
    if !lanes.contains_key(&sci) {
        lanes.insert(sci, Lane::new(alloc))?;
    }
    Ok(())
}

/// What the lanes show is laid into them, in the order of packets.
fn lay(alloc: Global, lanes: &mut BTreeMap<Sci, Lane>, shows: &Shows) -> Result<(), AllocError> {
    for (at, bar) in &shows.bars {
        reach(alloc, lanes, at.1.0)?;
        if let Some(lane) = lanes.get_mut(&at.1.0) {
            lane.bars.add(*bar)?;
        }
    }
    lay_marks(lanes, shows)
}

/// The marks are laid into the lanes.
fn lay_marks(lanes: &mut BTreeMap<Sci, Lane>, shows: &Shows) -> Result<(), AllocError> {
    for (at, known) in &shows.known {
        if let Some(lane) = lanes.get_mut(&at.1.0) {
            lane.known.add(*known)?;
        }
    }
    for (at, reported) in &shows.reported {
        if let Some(lane) = lanes.get_mut(&at.1.0) {
            lane.reported.add(*reported)?;
        }
    }
    Ok(())
}
