//! What has a time.

ghost use Rattle.std.specs.Prelude.{◌≡◌, ℕ};

/// What has a time, in ticks.
pub trait Timed {
    /// Its time.
    ghost time: { Self → ℕ };

    /// Its time.
    fn at(&self) -> u32
        ensures { result ≡ time self.now };
}
