//! The table of a station's transmit associations.
ghost use Rattle.std.specs.Prelude.{◌≡◌, ◌+◌, ◌*◌, ◌^◌, ◌<◌, ◌≤◌, length, slice_index, IfOk};
ghost use Rattle.association_slots.specs.Cards.{most_cards};
ghost use Rattle.association_slots.specs.Learned.{Learned};
ghost use Rattle.association_slots.specs.Steps.{at_first};

use crate::control::Control;
use crate::rule::SlotRule;
use crate::view::View;
use crate::words::FLAG;
use atomic_table::{Shared, Table};
use std::alloc::{AllocError, Global};
use std::marker::Model;
use std::sync::Arc;

/// A handle of four slots, a current word and the cards, which threads share. Contracts see which
/// table it is.
#[derive(Drop)]
pub struct SlotTable {
    table: Arc<Table<u64, View, (u64, u64), SlotRule, Global>, Global>,
}

impl Model for SlotTable {
    ghost use Rattle.atomic_table.specs.Seated.{TableId};
    ghost use Rattle.std.specs.Arc.{arc_value};

    ghost Value = { TableId };

    ghost view = { λ t. (arc_value t.table).shared.table_id };
}

impl SlotTable {
    /// A table with room for `cards` cards, and its control. Each slot is shut, and nothing is
    /// present. Each slot that is raised starts at the packet number `first`.
    pub fn new(alloc: Global, cards: u16, first: u32) -> Result<(SlotTable, Control), AllocError>
        requires cards { (1 ≤ cards) × (cards ≤ most_cards) }
        requires first { 1 ≤ first }
        ensures start { IfOk result (λ t. (t.1.table ≡ t.0) × (t.1.view ≡ at_first first cards)) }
        ensures learned { IfOk result (λ t. Learned t.1.view) }
    {
        let words = blank(alloc, cards)?;
        let about = (u64::from(first), u64::from(cards));
        let (table, place) = Table::of_words(alloc, words.as_slice(), &about)?;
        let table = Arc::new(alloc, table)?;
        Ok((SlotTable { table }, Control::first(place, first, cards)))
    }

    /// Another handle of the same table, for a thread of its own. It takes no memory, and fails only
    /// where 2^63 handles are out.
    pub fn handle(&self) -> Result<SlotTable, AllocError>
        ensures { IfOk result (λ t. t ≡ self.now) }
    {
        let table = Arc::try_clone(&self.table)?;
        Ok(SlotTable { table })
    }

    /// The words, on which seats and control step.
    pub(crate) fn shared(&self) -> &Shared<u64, View, (u64, u64), SlotRule>
        ensures { result.now.table_id ≡ self.now }
    {
        &self.table.shared
    }
}

/// Four shut slots, nothing present, and no cards.
fn blank(alloc: Global, cards: u16) -> Result<Vec<u64>, AllocError>
    ensures { IfOk result (λ v. (length v.items ≡ 5 + 5 * cards) × (slice_index v.items 0 ≡ 2 ^ 39)
        × (slice_index v.items 1 ≡ 2 ^ 39) × (slice_index v.items 2 ≡ 2 ^ 39)
        × (slice_index v.items 3 ≡ 2 ^ 39) × (slice_index v.items 4 ≡ 0)) }
{
    let mut words = Vec::from_elem(alloc, 0u64, 5 + 5 * usize::from(cards))?;
    words[0] = FLAG;
    words[1] = FLAG;
    words[2] = FLAG;
    words[3] = FLAG;
    Ok(words)
}
