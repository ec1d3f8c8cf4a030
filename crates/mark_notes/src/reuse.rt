//! A packet that uses a packet number again.

ghost use Rattle.std.specs.Prelude.{◌≤◌, All, List, OnOk};
ghost use Rattle.std.specs.BTreeMap.{is_at};
ghost use Rattle.std.specs.Map.{lookup};
ghost use Rattle.mark_notes.specs.declared.reuse.Reuse.{Reuse};
ghost use Rattle.mark_notes.specs.Standing.{KeepsReuses, sci_cmp};
ghost use Rattle.mark_notes.specs.inside.Putting.{IsReusedAt};

use lan_base::Sci;
use std::alloc::{AllocError, Global};
use std::collections::BTreeMap;
use tick_columns::{Thinned, Timed};

/// A right frame with the packet number of an earlier one of its key and sender, and other octets.
#[derive(Clone, Copy, Debug, PartialEq, Eq)]
pub struct Reuse {
    /// The packet, counted from 1.
    pub packet: u32,
    /// The key, counted from 1.
    pub key: u32,
    /// The sender.
    pub sci: Sci,
    /// The packet number (PN).
    pub pn: u32,
    /// The packet of the first frame with it.
    pub first: u32,
}

impl Timed for Reuse {
    ghost time = { λ reuse. reuse.packet };

    fn at(&self) -> u32 {
        self.packet
    }
}

/// A packet is reused by its sender, behind all that were reused before.
pub fn note_reuse(
    alloc: Global,
    senders: &mut BTreeMap<Sci, Thinned<Reuse>>,
    reuse: &Reuse,
) -> Result<(), AllocError>
    ensures { (rs : List Reuse)
        → KeepsReuses rs (lookup (is_at (sci_cmp reuse.now.sci)) senders.old.entries)
        → All (λ r. r.packet ≤ reuse.now.packet) rs
        → OnOk result (IsReusedAt reuse.now rs senders.old.entries senders.new.entries) }
{
    if let Some(columns) = senders.get_mut(&reuse.sci) {
        return columns.add(*reuse);
    }
    let mut columns = Thinned::new(alloc);
    columns.add(*reuse)?;
    senders.insert(reuse.sci, columns)?;
    Ok(())
}
