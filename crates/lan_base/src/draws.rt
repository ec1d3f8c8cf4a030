//! Where drawn values come from.

ghost use Rattle.std.specs.Prelude.{◌≡◌, ◌+◌, List, ℕ, Option, None, Some, OnSome, IfNone};

/// A supply of drawn values.
pub trait Draws {
    /// The values still to come, by their place from 0: what stands at 0 is drawn next. From the
    /// end of a listed supply on there are none.
    ghost nth: { Self → ℕ → Option (List ℕ) };

    /// Takes the next value; `None` where a supply has no more.
    fn draw(&mut self) -> Option<[u8; 16]>
        ensures next { result ≡ nth self.old 0 }
        ensures taken { OnSome result ((k : ℕ) → nth self.new k ≡ nth self.old (k + 1)) }
        ensures spent { IfNone result ((k : ℕ) → nth self.new k ≡ nth self.old k) };

    /// Behind a listed supply's end there is nothing.
    ghost ends: { (draws : Self) (k : ℕ) → nth draws k ≡ None → nth draws (k + 1) ≡ None };
}

/// A supply that counts: its n-th draw, from 1, is n modulo 2^128 in 16 octets, the highest first.
#[derive(Drop)]
pub struct CountDraws {
    drawn: u128,
}

impl CountDraws {
    ghost use Rattle.lan_base.specs.Counted.{count_from};

    /// A supply from which nothing was drawn.
    pub fn new() -> Self
        ensures { (k : ℕ) → ⟦<CountDraws as Draws>⟧.nth result k ≡ count_from 0 k }
    {
        CountDraws { drawn: 0 }
    }
}

impl Draws for CountDraws {
    ghost use Rattle.lan_base.specs.Counted.{count_from};

    ghost nth = { λ draws. count_from draws.drawn };

    ghost ends = { λ draws k spent. Prim.cc };

    fn draw(&mut self) -> Option<[u8; 16]> {
        self.drawn = self.drawn.wrapping_add(1);
        Some(self.drawn.to_be_bytes())
    }
}
