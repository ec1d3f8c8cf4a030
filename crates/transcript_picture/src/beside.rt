//! What is shown of facts beside their spans: what arrived, the identifiers of keys, and the lives.

use crate::columns::Columns;
use crate::history::History;
use crate::labels::PLACES;
use crate::legend::{Legend, Maker};
use lan_base::Mi;
use lan_core::Fact;
use std::alloc::{AllocError, Global};

/// What arrived, the identifiers of keys, and the lives of stations, by place.
#[derive(Drop)]
pub struct Beside {
    pub columns: Columns,
    pub legend: Legend,
    histories: Vec<History>,
    alloc: Global,
}

impl Beside {
    /// No fact. No memory is taken.
    pub fn new(alloc: Global) -> Beside {
        Beside {
            columns: Columns::new(alloc),
            legend: Legend::new(alloc),
            histories: Vec::new(alloc),
            alloc,
        }
    }

    /// A fact more, which comes at this time.
    pub fn note(&mut self, at: u32, fact: &Fact) -> Result<(), AllocError> {
        match fact {
            Fact::Life { station, mi } => self.begin(*station, at, *mi),
            Fact::Installed { id, .. } => {
                let maker = self.maker(id.server);
                self.legend.note(*id, maker)
            }
            Fact::Arrived {
                station,
                arrival,
                ..
            } => self.columns.take(*station, at, arrival),
            _ => Ok(()),
        }
    }

    /// The lives of a station.
    pub fn history(&self, station: u8) -> Option<&History> {
        self.histories.get(station as usize)
    }

    /// The life of this member, where it is one that goes on.
    fn maker(&self, mi: Mi) -> Option<Maker> {
        for place in 0..PLACES {
            if let Some(life) = self.history(place).and_then(|history| history.life_of(mi)) {
                return Some(Maker { place, life });
            }
        }
        None
    }

    /// A station begins a life.
    fn begin(&mut self, station: u8, at: u32, mi: Mi) -> Result<(), AllocError> {
        for _ in self.histories.len()..station as usize + 1 {
            self.histories.push(History::new(self.alloc))?;
        }
        match self.histories.get_mut(station as usize) {
            Some(history) => history.begin(at, mi),
            None => Ok(()),
        }
    }
}
