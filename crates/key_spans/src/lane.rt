//! The keys of one station.

ghost use Rattle.std.specs.Prelude.{◌≡◌, OnOk, OnErr};
ghost use Rattle.lan_base.specs.declared.association_number.AssociationNumber.{AssociationNumber};
ghost use Rattle.lan_core.specs.Run.{place};
ghost use Rattle.key_spans.specs.Spans.{turn_by};
ghost use Rattle.key_spans.specs.Standing.{no_rows, row_in};
ghost use Rattle.key_spans.specs.inside.Taking.{IsGrownRow, IsKeptRow, IsLaneAfter, IsLaneKept, IsOnly, IsTouched, installs};

use crate::row::{grow, touch};
use crate::span::{Span, turn_by};
use lan_base::AssociationNumber;
use lan_core::Fact;
use std::alloc::{AllocError, Global};
use std::marker::Model;
use tick_columns::Thinned;

/// The keys of one station, a row under each of the four association numbers.
#[derive(Drop)]
pub struct Lane {
    an0: Thinned<Span>,
    an1: Thinned<Span>,
    an2: Thinned<Span>,
    an3: Thinned<Span>,
}

impl Model for Lane {
    ghost use Rattle.key_spans.specs.Standing.{Rows};

    ghost Value = { Rows };

    ghost view = { λ l. record { an0 = l.an0; an1 = l.an1; an2 = l.an2; an3 = l.an3 } };
}

impl Lane {
    /// No key. No memory is taken.
    pub fn new(alloc: Global) -> Lane
        ensures { result ≡ no_rows }
    {
        Lane {
            an0: Thinned::new(alloc),
            an1: Thinned::new(alloc),
            an2: Thinned::new(alloc),
            an3: Thinned::new(alloc),
        }
    }

    /// The row under a number.
    pub fn row(&self, number: AssociationNumber) -> &Thinned<Span>
        ensures { result.now ≡ row_in self.now number }
    {
        match number {
            AssociationNumber::An0 => &self.an0,
            AssociationNumber::An1 => &self.an1,
            AssociationNumber::An2 => &self.an2,
            AssociationNumber::An3 => &self.an3,
        }
    }

    /// A fact that this station shows at this time. An error leaves the keys as they were.
    pub fn take(&mut self, at: u32, fact: &Fact) -> Result<(), AllocError>
        ensures taken { OnOk result (IsLaneAfter (place fact.now) at fact.now self.old self.new) }
        ensures kept { OnErr result (IsLaneKept at self.old self.new) }
    {
        match installed(at, fact) {
            Some(span) => self.grow(span),
            None => {
                self.touch(at, fact);
                Ok(())
            }
        }
    }

    /// A fact touches the last key of each row.
    fn touch(&mut self, at: u32, fact: &Fact)
        ensures { (an : AssociationNumber) → IsTouched at (turn_by (place fact.now) an fact.now)
            (row_in self.old an) (row_in self.new an) }
    {
        let station = fact.place();
        touch(
            &mut self.an0,
            at,
            turn_by(station, AssociationNumber::An0, fact),
        );
        touch(
            &mut self.an1,
            at,
            turn_by(station, AssociationNumber::An1, fact),
        );
        touch(
            &mut self.an2,
            at,
            turn_by(station, AssociationNumber::An2, fact),
        );
        touch(
            &mut self.an3,
            at,
            turn_by(station, AssociationNumber::An3, fact),
        );
    }

    /// A key comes to the row of its number. An error leaves the keys as they were.
    fn grow(&mut self, span: Span) -> Result<(), AllocError>
        ensures grown { OnOk result (IsOnly span.number (IsGrownRow span) self.old self.new) }
        ensures kept { OnErr result (IsOnly span.number (IsKeptRow span.installed) self.old self.new) }
    {
        match span.number {
            AssociationNumber::An0 => grow(&mut self.an0, span),
            AssociationNumber::An1 => grow(&mut self.an1, span),
            AssociationNumber::An2 => grow(&mut self.an2, span),
            AssociationNumber::An3 => grow(&mut self.an3, span),
        }
    }
}

/// The key that a fact of this time installs, if it does.
fn installed(at: u32, fact: &Fact) -> Option<Span>
    ensures { result ≡ installs at fact.now }
{
    match fact {
        Fact::Installed {
            station,
            id,
            an,
            epoch,
            sak: _,
        } => Some(Span {
            station: *station,
            number: *an,
            id: *id,
            epoch: *epoch,
            installed: at,
            began: None,
            relieved: None,
            ended: None,
        }),
        _ => None,
    }
}
