//! The generator of values.

ghost use Rattle.std.specs.Prelude.{◌≡◌, ◌/◌, ◌^◌};
ghost use Rattle.trace_maker.specs.Generator.{next};

/// What a state is multiplied by.
const MULTIPLIER: u64 = 6_364_136_223_846_793_005;

/// What is added to the product.
const INCREMENT: u64 = 1_442_695_040_888_963_407;

/// How far the values stand above the state's low bits.
const SHIFT: u32 = 33;

/// A linear congruence of 64 bits.
#[derive(Debug, Drop)]
pub struct Generator {
    pub state: u64,
}

impl Generator {
    /// Steps once, and answers the upper 31 bits of the new state.
    pub fn value(&mut self) -> u64
        ensures state { self.new.state ≡ next self.old.state }
        ensures value { result ≡ self.new.state / 2 ^ 33 }
    {
        self.state = self.state.wrapping_mul(MULTIPLIER).wrapping_add(INCREMENT);
        self.state >> SHIFT
    }
}
