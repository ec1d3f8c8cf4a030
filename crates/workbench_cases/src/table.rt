//! A table of slots whose only key is current.

ghost use Rattle.std.specs.Prelude.{◌≡◌, IfOk};

use aes_block::Secret;
use association_slots::{Card, Control, SlotTable};
use lan_base::AssociationNumber;
use std::alloc::{AllocError, Global};

/// The association that the key belongs to.
pub const AN: AssociationNumber = AssociationNumber::An0;

/// The key of 128 bits, with which frames are enciphered.
pub const CARD: Card = Card {
    sak: Secret::S128([7; 16]),
    conf: true,
};

/// A table with one card, whose epoch is current, and the control of it.
pub fn opened(alloc: Global) -> Result<(SlotTable, Control), AllocError>
    ensures { IfOk result (λ t. t.1.table ≡ t.0) }
{
    let (table, mut control) = SlotTable::new(alloc, 1, 1)?;
    if let Ok(epoch) = control.card(&table, &CARD) {
        control.raise(&table, AN, epoch);
        control.point(&table, AN, epoch);
    }
    Ok((table, control))
}
