//! The numbers of keys that are set by hand.

ghost use Rattle.std.specs.Prelude.{◌≡◌, [], IfErr, IfOk};
ghost use Rattle.known_keys.specs.History.{keys};
ghost use Rattle.capture_audit.specs.Before.{set_behind};
ghost use Rattle.capture_audit.specs.inside.Keeping.{numbered_among};
ghost use Rattle.capture_audit.specs.inside.Viewing.{IsEndOfHand};

use crate::end::AuditEnd;
use key_ring::HandKey;
use known_keys::KnownKeys;
use std::alloc::Global;

/// The keys that are set by hand, in the order of their lines, each with its number.
pub fn number_hand(alloc: Global, hand: &[HandKey]) -> Result<Vec<(u32, HandKey)>, AuditEnd>
    ensures numbers { IfOk result (λ numbered. numbered.items
        ≡ numbered_among (keys (set_behind [] hand.now)) hand.now) }
    ensures ends { IfErr result (λ end. IsEndOfHand hand.now end) }
{
    let mut known = KnownKeys::new(alloc);
    let mut numbered = Vec::new(alloc);
    for key in hand {
        let number = known.set(key.sender, key.an, key.sak)?;
        numbered.push((number, *key))?;
    }
    Ok(numbered)
}
