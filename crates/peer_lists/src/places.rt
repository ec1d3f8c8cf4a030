//! The rows of the table, in ascending order of member identifier.

ghost use Rattle.std.specs.Prelude.{◌≡◌, ◌<◌, ◌≤◌, OnErr, length, map, slice_get, option_map, vec_capacity};
ghost use Rattle.std.specs.List.{list_all};
ghost use Rattle.std.specs.List.Sorted.{IsBinarySearchResult, IsSearchInRange};
ghost use Rattle.lan_base.specs.Identifiers.{order};
ghost use Rattle.peer_lists.specs.Table.{member};
ghost use Rattle.peer_lists.specs.Showing.{aged_peer, aged_rows, shown};
ghost use Rattle.peer_lists.specs.inside.RowChanges.{displaced_rows, heard_at, stays};

use crate::heard::{Heard, Row};
use crate::remembered::Remembered;
use lan_base::Mi;

/// Where the member's row stands, or else where it would.
pub fn place_of(rows: &[Remembered], mi: &Mi) -> Result<usize, usize>
    ensures bound { IsSearchInRange result (length rows.now) }
    ensures place { IsBinarySearchResult (λ p. order (member p) mi.now) rows.now result }
{
    rows.binary_search_by(|row| row.last.told.mi.cmp(mi))
}

/// A tick passes: rows whose last words are now old go.
pub fn age(rows: &mut Vec<Remembered>)
    ensures rows { rows.new.items ≡ aged_rows rows.old.items }
    ensures fewer { length rows.new.items ≤ length rows.old.items }
    ensures capacity { vec_capacity rows.new ≡ vec_capacity rows.old }
{
    age_each(rows);
    rows.retain(|row| row.last.left > 0);
}

/// A tick passes for each row.
fn age_each(rows: &mut Vec<Remembered>)
    ensures rows { rows.new.items ≡ map aged_peer rows.old.items }
    ensures capacity { vec_capacity rows.new ≡ vec_capacity rows.old }
{
    for row in rows.iter_mut() {
        row.tick();
    }
}

/// A vouched announcement displaces what other members said under its SCI.
pub fn displace(rows: &mut Vec<Remembered>, heard: &Heard)
    ensures rows { rows.new.items ≡ displaced_rows heard.now rows.old.items }
    ensures capacity { vec_capacity rows.new ≡ vec_capacity rows.old }
{
    for row in rows.iter_mut() {
        row.displace(heard);
    }
}

/// An accepted announcement goes into its member's row, or into a new one at the place where that
/// belongs. There is room for it, so no memory is taken.
pub fn remember(
    rows: &mut Vec<Remembered>,
    place: Result<usize, usize>,
    heard: &Heard,
    vouched: bool,
)
    requires bound { IsSearchInRange place (length rows.old.items) }
    requires room { OnErr place (length rows.old.items < vec_capacity rows.old) }
    ensures rows { rows.new.items ≡ heard_at place vouched heard.now rows.old.items }
    ensures capacity { vec_capacity rows.old ≤ vec_capacity rows.new }
{
    match place {
        Ok(at) => rows[at].renew(heard, vouched),
        Err(at) => {
            let _ = rows.insert(at, Remembered::introduced(heard, vouched));
        }
    }
}

/// Whether a tick changes nothing of what is shown of the rows.
pub fn stay(rows: &[Remembered]) -> bool
    ensures { result ≡ list_all stays rows.now }
{
    rows.iter().all(|row| row.stays())
}

/// What is shown of the row at a place.
pub fn shown_at(rows: &[Remembered], at: usize) -> Option<Row>
    ensures { result ≡ option_map shown (slice_get rows.now at) }
{
    match rows.get(at) {
        Some(row) => Some(row.row()),
        None => None,
    }
}

/// What is shown of the rows, in place of what the vector has. There is room for it.
pub fn show(rows: &[Remembered], into: &mut Vec<Row>)
    requires { length rows.now ≤ vec_capacity into.old }
    ensures rows { into.new.items ≡ map shown rows.now }
    ensures few { length into.new.items ≤ length rows.now }
    ensures capacity { vec_capacity into.new ≡ vec_capacity into.old }
{
    into.clear();
    for row in rows {
        into.push_reserved(row.row());
    }
}

/// What is shown of the rows after a tick, in place of what the vector has. There is room for it.
pub fn show_after_tick(rows: &[Remembered], into: &mut Vec<Row>)
    requires { length rows.now ≤ vec_capacity into.old }
    ensures rows { into.new.items ≡ map shown (aged_rows rows.now) }
    ensures few { length into.new.items ≤ length rows.now }
    ensures capacity { vec_capacity into.new ≡ vec_capacity into.old }
{
    into.clear();
    for row in rows {
        let mut aged = *row;
        aged.tick();
        if aged.last.left > 0 {
            into.push_reserved(aged.row());
        }
    }
}
