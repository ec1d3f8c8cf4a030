//! What is kept of few members alone.

ghost use Rattle.std.specs.Prelude.{◌≡◌, IfOk, OnOk, OnErr};
ghost use Rattle.member_notes.specs.inside.Fewness.{renewed, seldom_in};

use crate::claim::Claim;
use crate::facts::Kinds;
use std::alloc::{AllocError, Global};

/// How many MKPDUs of a member are of the kinds that few have, and what the last new one says if that
/// serves.
#[derive(Drop)]
pub struct Seldom {
    pub kinds: Kinds,
    pub claim: Option<Claim>,
}

impl Seldom {
    fn renew(&mut self, kinds: Kinds, is_new: bool, claim: Option<Claim>)
        ensures { self.new ≡ renewed kinds is_new claim self.old }
    {
        self.kinds = kinds;
        if is_new {
            self.claim = claim;
        }
    }
}

/// How many MKPDUs are of these kinds.
pub fn kinds_in(kept: &Option<Box<Seldom>>) -> Kinds
    ensures { result ≡ (seldom_in kept.now).kinds }
{
    match kept {
        None => Kinds::none(),
        Some(seldom) => seldom.kinds,
    }
}

/// So many MKPDUs are of these kinds now, and a new one renews the claim. An error leaves all as it was.
pub fn renew(
    alloc: Global,
    kept: &mut Option<Box<Seldom>>,
    kinds: Kinds,
    is_new: bool,
    claim: Option<Claim>,
) -> Result<(), AllocError>
    ensures renews { OnOk result (seldom_in kept.new ≡ renewed kinds is_new claim (seldom_in kept.old)) }
    ensures kept { OnErr result (kept.new ≡ kept.old) }
{
    if let Some(seldom) = kept {
        seldom.renew(kinds, is_new, claim);
        return Ok(());
    }
    *kept = first(alloc, kinds, if is_new { claim } else { None })?;
    Ok(())
}

/// What is kept where nothing was.
fn first(
    alloc: Global,
    kinds: Kinds,
    claim: Option<Claim>,
) -> Result<Option<Box<Seldom>>, AllocError>
    ensures { IfOk result (λ kept. seldom_in kept ≡ record { kinds = kinds; claim = claim }) }
{
    if claim.is_none() && kinds.are_none() {
        return Ok(None);
    }
    Ok(Some(Box::new(alloc, Seldom { kinds, claim })?))
}
