//! How the frames of a key are sealed.

ghost use Rattle.std.specs.Prelude.{◌≡◌, IfOk};
ghost use Rattle.xpn_numbers.specs.declared.form.Sscis.TheVariants.{UpTo};
ghost use Rattle.xpn_numbers.specs.Candidates.{sscis_of};

use std::alloc::{AllocError, Global};

/// A form of a key: how many octets of user data its frames leave in clear, and under a suite with
/// extended packet numbers its salt and its short SCIs.
#[derive(Clone, Copy, Debug, PartialEq, Eq)]
pub struct Form {
    pub clear: usize,
    pub salted: Option<Salted>,
}

/// A salt, and the short SCIs that senders may have with it.
#[derive(Clone, Copy, Debug, PartialEq, Eq)]
pub struct Salted {
    pub salt: [u8; 12],
    pub sscis: Sscis,
}

/// The short SCIs of a form: the one that was set by hand, or those from 1 to the greatest that key
/// agreement can have given.
#[derive(Clone, Copy, Debug, PartialEq, Eq)]
pub enum Sscis {
    One(u32),
    UpTo(u32),
}

/// Where a key that was set by hand begins: with a salt and a short SCI, the high half of its first
/// packet number.
#[derive(Clone, Copy, Debug, PartialEq, Eq)]
pub struct Beginning {
    pub salt: [u8; 12],
    pub ssci: u32,
    pub high: u32,
}

/// The numbers from 1 to the greatest.
#[tactic(auto, using(crate::proofs::InTurn::sscis_more))]
fn up_to(alloc: Global, greatest: u32) -> Result<Vec<u32>, AllocError>
    ensures { IfOk result (λ v. v.items ≡ sscis_of (UpTo greatest)) }
{
    let mut sscis = Vec::new(alloc);
    for n in 0..greatest {
        sscis.push(n + 1)?;
    }
    Ok(sscis)
}

/// The short SCIs, ascending.
pub fn sscis_of(alloc: Global, sscis: Sscis) -> Result<Vec<u32>, AllocError>
    ensures { IfOk result (λ v. v.items ≡ sscis_of sscis) }
{
    match sscis {
        Sscis::One(ssci) => Ok(vec![in alloc; ssci]?),
        Sscis::UpTo(greatest) => up_to(alloc, greatest),
    }
}
