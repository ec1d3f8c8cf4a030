//! The reigns of one station.

ghost use Rattle.std.specs.Prelude.{◌≡◌, OnOk};
ghost use Rattle.lan_core.specs.Run.{place};
ghost use Rattle.key_spans.specs.Reigns.{is_begun_by, is_over_by, is_own, member_after};
ghost use Rattle.key_spans.specs.Courts.{no_court};
ghost use Rattle.key_spans.specs.inside.Ruling.{IsCourtAfter, IsCrowned, IsRuled};

use crate::reign::Reign;
use lan_base::Mi;
use lan_core::Fact;
use std::alloc::{AllocError, Global};
use std::marker::Model;
use tick_columns::Thinned;

/// The member of a station's life, and when the station served.
#[derive(Drop)]
pub struct Court {
    own: Option<Mi>,
    reigns: Thinned<Reign>,
}

impl Model for Court {
    ghost use Rattle.key_spans.specs.Courts.{KeptCourt};

    ghost Value = { KeptCourt };

    ghost view = { λ c. record { own = c.own; reigns = c.reigns } };
}

impl Court {
    /// No life. No memory is taken.
    pub fn new(alloc: Global) -> Court
        ensures { result ≡ no_court }
    {
        Court {
            own: None,
            reigns: Thinned::new(alloc),
        }
    }

    /// The reigns.
    pub fn reigns(&self) -> &Thinned<Reign>
        ensures { result.now ≡ self.now.reigns }
    {
        &self.reigns
    }

    /// A fact that this station shows at this time. After an error the value is of no use.
    pub fn take(&mut self, at: u32, fact: &Fact) -> Result<(), AllocError>
        ensures { OnOk result (IsCourtAfter (place fact.now) at fact.now self.old self.new) }
    {
        let begins = is_begun_by(self.own, fact);
        rule(&mut self.reigns, at, is_over_by(fact));
        self.own = member_after(self.own, fact);
        crown(&mut self.reigns, at, begins)
    }
}

/// The member of the life of a fact's station behind that fact.
fn member_after(own: Option<Mi>, fact: &Fact) -> Option<Mi>
    ensures { result ≡ member_after (place fact.now) own fact.now }
{
    match fact {
        Fact::Life { mi, .. } => Some(*mi),
        _ => own,
    }
}

/// Whether a reign of a fact's station is over by that fact, if there was one.
fn is_over_by(fact: &Fact) -> bool
    ensures { result ≡ is_over_by (place fact.now) fact.now }
{
    match fact {
        Fact::Life { .. } | Fact::Server { .. } => true,
        _ => false,
    }
}

/// Whether one begins by it, in the life of this member.
fn is_begun_by(own: Option<Mi>, fact: &Fact) -> bool
    ensures { result ≡ is_begun_by (place fact.now) own fact.now }
{
    match fact {
        Fact::Server { mi, .. } => is_own(own, *mi),
        _ => false,
    }
}

/// Whether both are there, and one.
fn is_own(own: Option<Mi>, server: Option<Mi>) -> bool
    ensures { result ≡ is_own own server }
{
    match (own, server) {
        (Some(own), Some(server)) => server == own,
        _ => false,
    }
}

/// The last reign is over, if it wasn't, or a fact is nothing to it.
fn rule(row: &mut Thinned<Reign>, at: u32, over: bool)
    ensures { IsRuled at over row.old row.new }
{
    match row.last() {
        Some(reign) => row.renew(reign.ruled(at, over)),
        None => {}
    }
}

/// A reign begins, or none does.
fn crown(row: &mut Thinned<Reign>, at: u32, begins: bool) -> Result<(), AllocError>
    ensures { OnOk result (IsCrowned at begins row.old row.new) }
{
    if begins {
        return row.add(Reign { from: at, to: None });
    }
    Ok(())
}
