//! Changes of keys, joined.

ghost use Rattle.std.specs.Prelude.{◌≡◌, ◌++◌, IfOk};
ghost use Rattle.std.specs.List.{list_any};
ghost use Rattle.mka_station.specs.inside.Turns.{is_install};

use sak_exchange::{Change, Changes};
use std::alloc::AllocError;

/// The changes of the first list and then those of the second.
pub fn joined(mut first: Changes, second: &Changes) -> Result<Changes, AllocError>
    ensures { IfOk result (λ c. c ≡ first ++ second.now) }
{
    for change in second.as_slice() {
        first.push(*change)?;
    }
    Ok(first)
}

/// Whether a key is installed.
pub fn one_installs(changes: &Changes) -> bool
    ensures { result ≡ list_any is_install changes.now }
{
    changes.as_slice().iter().any(|change| match change {
        Change::Installed(_) => true,
        _ => false,
    })
}
