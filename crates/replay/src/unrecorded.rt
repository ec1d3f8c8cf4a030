//! What is performed for its summary alone is told to nobody.

use lan_base::{Name, Unwritten};
use lan_core::{Fact, Facts};
use lan_schedule::{Preparing, Recorder};
use std::alloc::AllocError;

/// A recorder that drops what it is told.
#[derive(Clone, Copy, Debug)]
pub struct Unrecorded;

impl<K> Recorder<K> for Unrecorded {
    ghost use Rattle.std.specs.Prelude.{◌≡◌};

    ghost Took = { λ old report new. new ≡ old };

    ghost Broke = { λ old report new why. ⊥ };

    fn record(&mut self, _names: &[Name], _facts: Facts, _outlet: &mut K) -> Result<(), Unwritten> {
        Ok(())
    }
}

impl<K> Preparing<K> for Unrecorded {
    ghost Ready = { λ _ reports. Unit {0} };

    fn clear(&mut self) {}

    fn prepare(&mut self, _names: &[Name], _facts: &[Fact]) -> Result<(), AllocError> {
        Ok(())
    }

    fn tell(&mut self, _outlet: &mut K) -> Result<(), Unwritten> {
        Ok(())
    }
}
