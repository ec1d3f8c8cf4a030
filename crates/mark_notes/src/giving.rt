//! A packet that gives a key.

ghost use Rattle.std.specs.Prelude.{OnOk};
ghost use Rattle.mark_notes.specs.inside.Putting.{IsGivenMore};

use lan_base::{AssociationNumber, KeyId};
use std::alloc::AllocError;
use std::collections::BTreeMap;

/// A right MKPDU gives a key (IEEE Std 802.1X, clause 11).
#[derive(Clone, Copy, Debug, PartialEq, Eq)]
pub struct Giving {
    /// The key, counted from 1.
    pub key: u32,
    /// The packet, counted from 1.
    pub packet: u32,
    /// The group, counted from 1.
    pub group: u32,
    /// The identifier under which it is given.
    pub id: KeyId,
    /// The association number with which it is given.
    pub an: AssociationNumber,
}

/// A key is given: that is kept where it was given by no packet before.
pub fn give(givings: &mut BTreeMap<u32, Giving>, giving: &Giving) -> Result<(), AllocError>
    ensures { OnOk result (IsGivenMore giving.now givings.old.entries givings.new.entries) }
{
    if givings.contains_key(&giving.key) {
        return Ok(());
    }
    givings.insert(giving.key, *giving)?;
    Ok(())
}
