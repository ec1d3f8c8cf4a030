//! The keys of a station under one association number.

ghost use Rattle.std.specs.Prelude.{OnOk, OnErr};
ghost use Rattle.key_spans.specs.inside.Taking.{GivesBack, IsGrownRow, IsKeptRow, IsTouched};

use crate::span::{Span, Turn, Why};
use std::alloc::AllocError;
use tick_columns::Thinned;

/// The last key is touched.
pub(crate) fn touch(row: &mut Thinned<Span>, at: u32, turn: Option<Turn>)
    ensures { IsTouched at turn row.old row.new }
{
    match row.last() {
        Some(span) => row.renew(span.touched(at, turn)),
        None => {}
    }
}

/// A key comes, and the one before it ends. An error leaves the keys as they were.
pub(crate) fn grow(row: &mut Thinned<Span>, span: Span) -> Result<(), AllocError>
    ensures grown { OnOk result (IsGrownRow span row.old row.new) }
    ensures kept { OnErr result (IsKeptRow span.installed row.old row.new) }
{
    let before = row.last();
    touch(row, span.installed, Some(Turn::Ends(Why::Replaced)));
    match row.add(span) {
        Ok(()) => Ok(()),
        Err(error) => {
            give_back(row, before);
            Err(error)
        }
    }
}

/// The last key becomes again what it was.
fn give_back(row: &mut Thinned<Span>, before: Option<Span>)
    ensures { GivesBack before row.old row.new }
{
    match before {
        Some(span) => row.renew(span),
        None => {}
    }
}
