//! The lines of changes.

ghost use Rattle.std.specs.Prelude.{◌≡◌, ◌++◌, OnOk};
ghost use Rattle.audit_report.specs.Changes.{change_line, change_lines};

use crate::lines::{number, put_line};
use std::alloc::AllocError;
use trace_text::Word;
use use_notes::changes::Change;

/// Appends from which key each sender came to which. An `Err` may leave a front of it.
pub fn put_changes(changes: &[Change], into: &mut Vec<u8>) -> Result<(), AllocError>
    ensures { OnOk result (into.new.items ≡ into.old.items ++ change_lines changes.now) }
{
    for change in changes {
        put_change(change, into)?;
    }
    Ok(())
}

/// Appends the line of a change.
fn put_change(change: &Change, into: &mut Vec<u8>) -> Result<(), AllocError>
    ensures { OnOk result (into.new.items ≡ into.old.items ++ change_line change.now) }
{
    put_line(
        into,
        b"change",
        &[
            Word::Octets(&change.sci.0),
            number(change.from),
            number(change.to),
            Word::Text(b"last"),
            number(change.last),
            Word::Text(b"first"),
            number(change.first),
            Word::Text(b"gap"),
            Word::Number(change.gap),
            Word::Text(b"after"),
            number(change.after),
            Word::Number(change.behind),
        ],
    )
}
