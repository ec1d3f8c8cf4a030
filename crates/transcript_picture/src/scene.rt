//! What a picture shows of facts that come one after another.

ghost use Rattle.std.specs.Prelude.{◌≡◌, ◌++◌, ◌∷◌, [], List, OnOk};
ghost use Rattle.lan_core.specs.declared.fact.Fact.{Fact};
ghost use Rattle.transcript_picture.specs.Standing.{Shows};

use crate::beside::Beside;
use crate::columns::Columns;
use crate::history::History;
use crate::legend::Legend;
use key_spans::{Reigns, Seats, Sends, Spans};
use lan_core::Fact;
use std::alloc::{AllocError, Global};
use std::marker::Model;

/// What is shown of the facts so far: the spans, when stations left a group, when they served, and what they sent; and, of which
/// contracts say nothing, what arrived, the identifiers of keys, and the lives.
#[derive(Drop)]
pub struct Scene {
    spans: Spans,
    seats: Seats,
    reigns: Reigns,
    sends: Sends,
    beside: Beside,
}

impl Model for Scene {
    ghost use Rattle.transcript_picture.specs.Standing.{KeptScene};

    ghost Value = { KeptScene };

    ghost view = { λ s. record { spans = s.spans; seats = s.seats; reigns = s.reigns; sends = s.sends } };
}

impl Scene {
    /// No fact. No memory is taken.
    pub fn new(alloc: Global) -> Scene
        ensures { Shows [] result }
    {
        Scene {
            spans: Spans::new(alloc),
            seats: Seats::new(alloc),
            reigns: Reigns::new(alloc),
            sends: Sends::new(alloc),
            beside: Beside::new(alloc),
        }
    }

    /// A fact more. After an error the scene is of no use.
    pub fn take(&mut self, fact: &Fact) -> Result<(), AllocError>
        ensures { (facts : List Fact) → Shows facts self.old
            → OnOk result (Shows (facts ++ fact.now ∷ []) self.new) }
    {
        let at = self.spans.clock();
        self.beside.note(at, fact)?;
        self.seats.take(fact)?;
        self.reigns.take(fact)?;
        self.sends.take(fact)?;
        self.spans.take(fact)
    }

    /// The spans.
    pub(crate) fn spans(&self) -> &Spans {
        &self.spans
    }

    /// When stations left a group.
    pub(crate) fn seats(&self) -> &Seats {
        &self.seats
    }

    /// When stations served.
    pub(crate) fn reigns(&self) -> &Reigns {
        &self.reigns
    }

    /// What stations sent.
    pub(crate) fn sends(&self) -> &Sends {
        &self.sends
    }

    /// What arrived.
    pub(crate) fn columns(&self) -> &Columns {
        &self.beside.columns
    }

    /// The identifiers.
    pub(crate) fn legend(&self) -> &Legend {
        &self.beside.legend
    }

    /// The lives of a station.
    pub(crate) fn history(&self, station: u8) -> Option<&History> {
        self.beside.history(station)
    }

    /// Whether a station began a life.
    pub(crate) fn has_lived(&self, station: u8) -> bool {
        match self.history(station) {
            Some(history) => history.births().latest().is_some(),
            None => false,
        }
    }
}
