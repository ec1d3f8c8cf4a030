//! The high halves that are tried with a short SCI.

ghost use Rattle.std.specs.Prelude.{◌≡◌, ◌∷◌, ◌++◌, [], ℕ, List, OnOk, IfOk};
ghost use Rattle.std.specs.Prelude.{◌==◌};
ghost use Rattle.std.specs.List.{flat_map, list_any};
ghost use Rattle.xpn_numbers.specs.Candidates.{above, and_above, below, beginnings, from_first, from_last, highs, with_all, with_new};

use crate::form::Beginning;
use crate::place::Places;
use std::alloc::{AllocError, Global};

/// Whether a high half is tried.
fn is_tried(tried: &[u32], high: u32) -> bool
    ensures { result ≡ list_any (λ h. h == high) tried.now }
{
    tried.iter().any(|h| *h == high)
}

/// A high half is tried, unless it is tried before.
#[tactic(auto, using(crate::proofs::InTurn::new_not, crate::proofs::InTurn::new_is))]
fn try_high(tried: &mut Vec<u32>, high: u32) -> Result<(), AllocError>
    ensures { OnOk result (tried.new.items ≡ with_new tried.old.items high) }
{
    if is_tried(tried, high) {
        return Ok(());
    }
    tried.push(high)?;
    Ok(())
}

/// A high half is tried, and one more.
#[tactic(auto, using(crate::proofs::InTurn::above_some, crate::proofs::InTurn::above_none))]
fn try_and_above(tried: &mut Vec<u32>, high: u32) -> Result<(), AllocError>
    ensures { OnOk result (tried.new.items ≡ with_all tried.old.items (and_above high)) }
{
    try_high(tried, high)?;
    match high.checked_add(1) {
        Some(next) => try_high(tried, next),
        None => Ok(()),
    }
}

/// A high half less one is tried, where there is one.
#[tactic(auto, using(crate::proofs::InTurn::below_some))]
fn try_below(tried: &mut Vec<u32>, high: u32) -> Result<(), AllocError>
    ensures { OnOk result (tried.new.items ≡ with_all tried.old.items (below high)) }
{
    if high == 0 {
        return Ok(());
    }
    try_high(tried, high - 1)
}

/// That of the last right frame is tried, one more and one less.
#[tactic(auto, using(crate::proofs::InTurn::all_append))]
fn try_last(tried: &mut Vec<u32>, places: Option<Places>) -> Result<(), AllocError>
    ensures { OnOk result (tried.new.items ≡ with_all tried.old.items (from_last places)) }
{
    if let Some(places) = places {
        try_and_above(tried, places.last.high)?;
        try_below(tried, places.last.high)?;
    }
    Ok(())
}

/// That of the first right frame is tried.
fn try_first(tried: &mut Vec<u32>, places: Option<Places>) -> Result<(), AllocError>
    ensures { OnOk result (tried.new.items ≡ with_all tried.old.items (from_first places)) }
{
    match places {
        Some(places) => try_high(tried, places.first.high),
        None => Ok(()),
    }
}

/// Each of these is tried, and one more.
#[tactic(auto, using(crate::proofs::InTurn::all_append))]
fn try_each(tried: &mut Vec<u32>, highs: &[u32]) -> Result<(), AllocError>
    ensures { OnOk result (tried.new.items ≡ with_all tried.old.items (flat_map and_above highs.now)) }
{
    for high in highs {
        try_and_above(tried, *high)?;
    }
    Ok(())
}

/// The high halves with which a key that was set by hand begins, under a salt and a short SCI.
fn beginnings(
    alloc: Global,
    set: &[Beginning],
    salt: [u8; 12],
    ssci: u32,
) -> Result<Vec<u32>, AllocError>
    ensures { IfOk result (λ v. v.items ≡ beginnings set.now salt ssci) }
{
    set.iter()
        .filter(|beginning| beginning.ssci == ssci && beginning.salt == salt)
        .map(|beginning| beginning.high)
        .collect(alloc)
}

/// The high halves that are tried with a short SCI, in turn and each once.
#[tactic(auto, using(crate::proofs::InTurn::all_append))]
pub fn highs(
    alloc: Global,
    places: Option<Places>,
    set: &[Beginning],
    shown: &[u32],
    salt: [u8; 12],
    ssci: u32,
) -> Result<Vec<u32>, AllocError>
    ensures { IfOk result (λ v. v.items ≡ highs places set.now shown.now salt ssci) }
{
    let begun = beginnings(alloc, set, salt, ssci)?;
    let mut tried = Vec::new(alloc);
    try_last(&mut tried, places)?;
    try_high(&mut tried, 0)?;
    try_first(&mut tried, places)?;
    try_each(&mut tried, &begun)?;
    try_each(&mut tried, shown)?;
    Ok(tried)
}
