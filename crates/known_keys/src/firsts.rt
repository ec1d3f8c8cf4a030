//! What was told first of each identifier and of each key, and the least pair of packets that break.

ghost use Rattle.std.specs.Prelude.{◌≡◌, ℕ, IfOk};
ghost use Rattle.lan_base.specs.declared.key_id.KeyId.{KeyId};
ghost use Rattle.known_keys.specs.declared.named.Named.{Named};
ghost use Rattle.known_keys.specs.OneKey.{lesser_of, same_id, same_named};
ghost use Rattle.known_keys.specs.Maps.{first_giving, first_naming};
ghost use Rattle.known_keys.specs.inside.Firsts.{IsNoted};

use crate::named::{Named, is_same_named};
use lan_base::{KeyId, Mi};
use std::alloc::AllocError;
use std::collections::BTreeMap;

/// What an identifier names is noted: the first packet that gave it, where that named another thing.
pub fn note_name(
    names: &mut BTreeMap<(Mi, u32), (u32, Named)>,
    pair: &mut Option<(u32, u32)>,
    packet: u32,
    id: KeyId,
    named: Named,
) -> Result<Option<u32>, AllocError>
    ensures { IfOk result (λ answer. IsNoted KeyId Named same_named (first_naming names.old.entries)
        (first_naming names.new.entries) pair.old pair.new packet id named answer) }
{
    let place = (id.server, id.number);
    let Some((first, before)) = names.get(&place).copied() else {
        names.insert(place, (packet, named))?;
        return Ok(None);
    };
    if is_same_named(&before, &named) {
        return Ok(None);
    }
    *pair = (*pair).or(Some((first, packet)));
    Ok(Some(first))
}

/// The identifier of a key is noted: the first packet that gave the key, where that was under
/// another identifier.
pub fn note_id(
    ids: &mut BTreeMap<u32, (u32, KeyId)>,
    pair: &mut Option<(u32, u32)>,
    packet: u32,
    key: u32,
    id: KeyId,
) -> Result<Option<u32>, AllocError>
    ensures { IfOk result (λ answer. IsNoted ℕ KeyId same_id (first_giving ids.old.entries)
        (first_giving ids.new.entries) pair.old pair.new packet key id answer) }
{
    let Some((first, before)) = ids.get(&key).copied() else {
        ids.insert(key, (packet, id))?;
        return Ok(None);
    };
    if is_same_id(&before, &id) {
        return Ok(None);
    }
    *pair = (*pair).or(Some((first, packet)));
    Ok(Some(first))
}

/// Whether both are the same identifier.
fn is_same_id(one: &KeyId, other: &KeyId) -> bool
    ensures { result ≡ same_id one.now other.now }
{
    one.server == other.server && one.number == other.number
}

/// The pair with the less later packet, and of two with one later packet the one with the less
/// earlier.
pub fn lesser(one: Option<(u32, u32)>, other: Option<(u32, u32)>) -> Option<(u32, u32)>
    ensures { result ≡ lesser_of one other }
{
    let Some(a) = one else {
        return other;
    };
    let Some(b) = other else {
        return one;
    };
    if b.1 < a.1 || (b.1 == a.1 && b.0 < a.0) {
        Some(b)
    } else {
        Some(a)
    }
}
