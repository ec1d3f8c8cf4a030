//! What control does while workers work.

/// Control of words, which moves them while workers claim from them.
pub trait Steering {
    /// From one value control came to another as it did all that it had to do.
    ghost Steers: { Self → Self → Type 0 };

    /// Does all that it has to do, and returns. It waits nowhere but in a gate.
    fn run(&mut self)
        ensures { Steers self.old self.new };
}
