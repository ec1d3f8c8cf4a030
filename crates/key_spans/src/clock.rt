//! The time at which facts come.

ghost use Rattle.std.specs.Prelude.{◌≡◌};
ghost use Rattle.key_spans.specs.Spans.{clock_after, start, ticks_after};

use lan_core::Fact;
use transcript_reader::{is_own, moves_time};

/// How many ticks there were, as far as 32 bits count; and whether the last one was the first station's
/// own in the first group.
#[derive(Clone, Copy, Debug, PartialEq, Eq)]
pub struct Clock {
    pub ticks: u32,
    pub own: bool,
}

impl Clock {
    /// No time went by.
    pub fn start() -> Clock
        ensures { result ≡ start }
    {
        Clock {
            ticks: 0,
            own: false,
        }
    }

    /// The clock after a fact more.
    pub fn after(self, fact: &Fact) -> Clock
        ensures { result ≡ clock_after self fact.now }
    {
        Clock {
            ticks: ticks_after(self.ticks, moves_time(self.own, fact)),
            own: is_own(self.own, fact),
        }
    }
}

/// So many ticks, and one more where time moves on.
fn ticks_after(ticks: u32, moves: bool) -> u32
    ensures { result ≡ ticks_after ticks moves }
{
    if moves {
        ticks.saturating_add(1)
    } else {
        ticks
    }
}
