//! What the lanes show, in the order of packets.

use crate::entry::{Bar, Known, Reported};
use crate::origin::{Hand, Origin};
use audit_facts::AuditView;
use audit_report::TimedUse;
use lan_base::{Mi, Sci};
use rollover_notes::Report;
use std::alloc::{AllocError, Global};
use std::collections::BTreeMap;

/// A packet, a sender, and a key.
pub type Place = (u32, (Sci, u32));

/// What the lanes show, and where the keys are from that they show.
#[derive(Drop)]
pub struct Shows {
    pub bars: BTreeMap<Place, Bar>,
    pub known: BTreeMap<Place, Known>,
    pub reported: BTreeMap<Place, Reported>,
    pub origins: BTreeMap<u32, Origin>,
}

impl Shows {
    /// What those of a view show, whose members speak under these SCIs.
    pub fn of(
        alloc: Global,
        view: &AuditView,
        scis: &BTreeMap<(u32, Mi), Sci>,
    ) -> Result<Shows, AllocError> {
        let mut shows = Shows {
            bars: BTreeMap::new(alloc),
            known: BTreeMap::new(alloc),
            reported: BTreeMap::new(alloc),
            origins: BTreeMap::new(alloc),
        };
        let hand = Hand::of(alloc, view)?;
        for told in view.verdict.timed() {
            shows.take_use(view, &hand, told)?;
        }
        for report in &view.reports {
            shows.take_report(view, &hand, scis, report)?;
        }
        Ok(shows)
    }

    /// A key is used by a sender.
    fn take_use(
        &mut self,
        view: &AuditView,
        hand: &Hand,
        told: &TimedUse,
    ) -> Result<(), AllocError> {
        let Some(origin) = hand.origin(view, told.noted.key) else {
            return Ok(());
        };
        let (sci, key) = (told.noted.sci, told.noted.key);
        let first = told.noted.counts.first;
        self.bars.insert(
            (first, (sci, key)),
            Bar {
                told: *told,
                origin,
            },
        )?;
        self.know(sci, key, origin)
    }

    /// A key is reported by a member.
    fn take_report(
        &mut self,
        view: &AuditView,
        hand: &Hand,
        scis: &BTreeMap<(u32, Mi), Sci>,
        report: &Report,
    ) -> Result<(), AllocError> {
        let Some(sci) = scis.get(&(report.group, report.mi)).copied() else {
            return Ok(());
        };
        let Some(origin) = hand.origin(view, report.key) else {
            return Ok(());
        };
        self.reported.insert(
            (report.packet, (sci, report.key)),
            Reported {
                report: *report,
                origin,
            },
        )?;
        self.know(sci, report.key, origin)
    }

    /// A key is shown in the lane of a sender.
    fn know(&mut self, sci: Sci, key: u32, origin: Origin) -> Result<(), AllocError> {
        let packet = origin.packet();
        self.origins.insert(key, origin)?;
        self.known.insert(
            (packet, (sci, key)),
            Known {
                packet,
                key,
                origin,
            },
        )?;
        Ok(())
    }
}
