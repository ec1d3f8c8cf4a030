//! Draws from a list that ends.

ghost use Rattle.std.specs.Prelude.{◌≡◌, ◌+◌, ℕ};
ghost use Rattle.std.specs.List.{slice_get};

use crate::blocks::Blocks;
use crate::draws::Draws;

/// A supply that draws what a list holds, in its order, and then has no more.
#[derive(Drop)]
pub struct ListDraws {
    values: Blocks,
    drawn: usize,
}

impl ListDraws {
    /// A supply of these values, from which nothing was drawn. It takes no memory.
    pub fn of(values: Blocks) -> Self
        ensures { (k : ℕ) → ⟦<ListDraws as Draws>⟧.nth result k ≡ slice_get values k }
    {
        ListDraws { values, drawn: 0 }
    }
}

impl Draws for ListDraws {
    ghost use Rattle.lan_base.specs.Listed.{list_from, list_from-ends};

    ghost nth = { λ draws. list_from draws.values draws.drawn };

    ghost ends = { λ draws. list_from-ends draws.values draws.drawn };

    fn draw(&mut self) -> Option<[u8; 16]> {
        let value = self.values.as_slice().get(self.drawn).copied()?;
        self.drawn += 1;
        Some(value)
    }
}
