//! Where threads can be held.

/// A place that a thread passes.
#[derive(Clone, Copy, Debug, PartialEq, Eq)]
pub enum Point {
    /// A seat has loaded the current word, and will add.
    Loaded { seat: u8 },
    /// A seat has its claim.
    Taken { seat: u8 },
    /// Control has moved a station's current word.
    Pointed { station: u8 },
}

/// What a thread does at such a place. It may wait, and changes nothing that a contract sees.
pub trait Gate {
    /// The thread has come to this place.
    fn at(&self, point: Point);
}

/// The gate that holds nobody.
#[derive(Clone, Copy, Debug, PartialEq, Eq)]
pub struct OpenGate;

impl Gate for OpenGate {
    fn at(&self, _point: Point) {}
}
