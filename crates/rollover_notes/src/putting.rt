//! A value that is put where none was.

ghost use Rattle.std.specs.Prelude.{OnOk};
ghost use Rattle.rollover_notes.specs.inside.Putting.{PutsFirst};

use std::alloc::AllocError;
use std::collections::BTreeMap;

/// A value is put under a key, where none was.
pub fn put_first<K: Ord + Drop, V: Drop>(
    map: &mut BTreeMap<K, V>,
    key: K,
    value: V,
) -> Result<(), AllocError>
    ensures { OnOk result (PutsFirst K.cmp key value map.old.entries map.new.entries) }
{
    if map.contains_key(&key) {
        return Ok(());
    }
    map.insert(key, value).map_err(AllocError::from)?;
    Ok(())
}
