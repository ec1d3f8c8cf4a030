//! The gate of a replay: a type of its own, whatever kind of gate its caller chose.

use packet_claims::{Gate, Point};

/// A gate of a kind that is chosen as the program runs.
#[derive(Drop)]
pub enum AnyGate {
    /// The gate that holds nobody.
    Open,
    /// Another one, which threads share.
    Other(Box<dyn Gate + Sync + Drop>),
}

impl Gate for AnyGate {
    fn at(&self, point: Point) {
        match self {
            AnyGate::Open => {}
            AnyGate::Other(gate) => gate.at(point),
        }
    }
}
