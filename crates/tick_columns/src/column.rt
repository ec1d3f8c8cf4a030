//! What is kept of the items of one column.

ghost use Rattle.std.specs.Prelude.{◌≡◌, ◌/◌, IfOk};
ghost use Rattle.tick_columns.specs.inside.Joining.{both};

use crate::timed::Timed;
use std::alloc::AllocError;

/// The last item of a column, and how many came before it there.
#[derive(Clone, Copy)]
pub struct Column<T> {
    pub before: u64,
    pub last: T,
}

impl<T: Copy + Timed> Column<T> {
    /// Which column this is, where each has so many ticks.
    pub(crate) fn place(&self, ticks: u32) -> u32
        ensures { result ≡ T.time self.now.last / ticks }
    {
        self.last.at().checked_div(ticks).unwrap_or(0)
    }

    /// This column and those behind it in one, as far as they can be counted.
    pub(crate) fn and(self, later: Column<T>) -> Result<Column<T>, AllocError>
        ensures { IfOk result (λ column. column ≡ both self later) }
    {
        let before = self.before.checked_add(1).ok_or(AllocError)?;
        Ok(Column {
            before: before.checked_add(later.before).ok_or(AllocError)?,
            last: later.last,
        })
    }
}
