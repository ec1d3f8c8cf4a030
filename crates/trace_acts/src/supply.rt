//! Where a trace's draws come from.

ghost use Rattle.std.specs.Prelude.{◌≡◌, ℕ, IfOk};
ghost use Rattle.trace_acts.specs.Supply.{draw_at};

use crate::choices::Rule;
use lan_base::{Blocks, ChaChaDraws, CountDraws, Draws, ListDraws};
use std::alloc::{AllocError, Global};

/// A supply of draws by one of the rules.
#[derive(Drop)]
pub enum Supply {
    Counted(CountDraws),
    Streamed(ChaChaDraws),
    Listed(ListDraws),
}

impl Supply {
    /// A supply by a rule, from which nothing was drawn. What is listed is copied.
    pub fn of(alloc: Global, rule: &Rule) -> Result<Self, AllocError>
        ensures { IfOk result (λ supply. (k : ℕ)
            → ⟦<Supply as Draws>⟧.nth supply k ≡ draw_at rule.now k) }
    {
        match rule {
            Rule::Counted => Ok(Supply::Counted(CountDraws::new())),
            Rule::Streamed(key) => Ok(Supply::Streamed(ChaChaDraws::new(key))),
            Rule::Listed(values) => {
                let mut copy = Blocks::new(alloc);
                copy.extend(values.as_slice())?;
                Ok(Supply::Listed(ListDraws::of(copy)))
            }
        }
    }
}

impl Draws for Supply {
    ghost use Rattle.trace_acts.specs.Supply.{supply_nth};
    ghost use Rattle.trace_acts.specs.inside.Supplies.{supply-ends};

    ghost nth = { supply_nth };

    ghost ends = { supply-ends };

    fn draw(&mut self) -> Option<[u8; 16]> {
        match self {
            Supply::Counted(draws) => draws.draw(),
            Supply::Streamed(draws) => draws.draw(),
            Supply::Listed(draws) => draws.draw(),
        }
    }
}
