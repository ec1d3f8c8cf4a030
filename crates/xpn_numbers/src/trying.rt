//! What is tried of a frame under the forms of a key.

ghost use Rattle.std.specs.Prelude.{◌≡◌, ◌++◌, List, OnOk, IfOk};
ghost use Rattle.std.specs.List.{flat_map};
ghost use Rattle.xpn_numbers.specs.Candidates.{candidates_by, in_turn, is_last, plain_of, salted_of, sscis_of, ssci_candidates};

use crate::candidate::{Candidate, Tried};
use crate::form::{Beginning, Form, Salted, sscis_of};
use crate::highs::highs;
use crate::place::Places;
use std::alloc::{AllocError, Global};

/// What is known of the numbers of a key and sender.
#[derive(Clone, Copy)]
pub struct Hints<'a> {
    pub places: Option<Places>,
    /// How the key was set by hand.
    pub set: &'a [Beginning],
    /// The high halves that members show.
    pub shown: &'a [u32],
}

/// Whether the last right frame had this short SCI.
fn is_last(places: Option<Places>, ssci: u32) -> bool
    ensures { result ≡ is_last places ssci }
{
    match places {
        Some(places) => places.last.ssci == ssci,
        None => false,
    }
}

/// The short SCI of the last right frame first, and then the others.
fn in_turn(alloc: Global, places: Option<Places>, sscis: &[u32]) -> Result<Vec<u32>, AllocError>
    ensures { IfOk result (λ v. v.items ≡ in_turn places sscis.now) }
{
    let first = sscis.iter().copied().filter(|s| is_last(places, *s));
    let others = sscis.iter().copied().filter(|s| !is_last(places, *s));
    first.chain(others).collect(alloc)
}

/// Appends what is tried with a salt and a short SCI.
fn append_ssci(
    alloc: Global,
    tried: &Tried,
    hints: Hints<'_>,
    clear: usize,
    salt: [u8; 12],
    ssci: u32,
    into: &mut Vec<Candidate>,
) -> Result<(), AllocError>
    ensures { OnOk result (into.new.items ≡ into.old.items
        ++ ssci_candidates tried.now hints.entry.places hints.entry.set.now hints.entry.shown.now clear salt ssci) }
{
    let highs = highs(alloc, hints.places, hints.set, hints.shown, salt, ssci)?;
    for high in &highs {
        into.push(Candidate::with_high(tried, clear, salt, ssci, *high))?;
    }
    Ok(())
}

/// Appends what is tried with a salt.
fn append_salted(
    alloc: Global,
    tried: &Tried,
    hints: Hints<'_>,
    clear: usize,
    salted: Salted,
    into: &mut Vec<Candidate>,
) -> Result<(), AllocError>
    ensures { OnOk result (into.new.items ≡ into.old.items
        ++ flat_map (ssci_candidates tried.now hints.entry.places hints.entry.set.now hints.entry.shown.now clear salted.salt) (in_turn hints.entry.places (sscis_of salted.sscis))) }
{
    let sscis = sscis_of(alloc, salted.sscis)?;
    let turn = in_turn(alloc, hints.places, &sscis)?;
    for ssci in &turn {
        append_ssci(alloc, tried, hints, clear, salted.salt, *ssci, into)?;
    }
    Ok(())
}

/// Appends what is tried under a form with a salt.
fn append_form(
    alloc: Global,
    tried: &Tried,
    hints: Hints<'_>,
    form: &Form,
    into: &mut Vec<Candidate>,
) -> Result<(), AllocError>
    ensures { OnOk result (into.new.items ≡ into.old.items
        ++ salted_of tried.now hints.entry.places hints.entry.set.now hints.entry.shown.now form.now) }
{
    match form.salted {
        Some(salted) => append_salted(alloc, tried, hints, form.clear, salted, into),
        None => Ok(()),
    }
}

/// Appends what is tried under a form without a salt.
fn append_plain(tried: &Tried, form: &Form, into: &mut Vec<Candidate>) -> Result<(), AllocError>
    ensures { OnOk result (into.new.items ≡ into.old.items ++ plain_of tried.now form.now) }
{
    if form.salted.is_none() {
        into.push(Candidate::plain(tried, form.clear))?;
    }
    Ok(())
}

/// Appends what is tried under the forms of a key: those without a salt first.
pub fn append_forms(
    alloc: Global,
    tried: &Tried,
    hints: Hints<'_>,
    forms: &[Form],
    into: &mut Vec<Candidate>,
) -> Result<(), AllocError>
    ensures { OnOk result (into.new.items ≡ into.old.items
        ++ candidates_by tried.now hints.entry.places hints.entry.shown.now forms.now hints.entry.set.now) }
{
    for form in forms {
        append_plain(tried, form, into)?;
    }
    'salted: for form in forms {
        append_form(alloc, tried, hints, form, into)?;
    }
    Ok(())
}
