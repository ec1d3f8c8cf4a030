//! What is kept of the latest key.

ghost use Rattle.std.specs.Prelude.{◌≡◌, ◌==◌};
ghost use Rattle.lan_base.specs.Timers.{retire_time};
ghost use Rattle.sak_exchange.specs.inside.States.{aged, begun_now, counted};

use crate::held_key::HeldKey;
use lan_base::RETIRE_TIME;

/// The latest key.
#[derive(Clone, Copy)]
pub struct Latest {
    pub held: HeldKey,
    /// How many ticks ago it began, as far as they can be counted; 0 where it hasn't begun.
    pub since_begun: u32,
}

impl Latest {
    /// The latest key a tick later.
    pub(crate) fn aged(&self) -> Latest
        ensures { result ≡ aged self.now }
    {
        Latest {
            held: self.held,
            since_begun: if self.held.begun {
                self.since_begun.saturating_add(1)
            } else {
                0
            },
        }
    }

    /// Whether it is the retire time after it began at the next tick, where it has begun.
    pub(crate) fn retires_next(&self) -> bool
        ensures { result ≡ (counted self.now.since_begun == retire_time) }
    {
        self.since_begun.saturating_add(1) == RETIRE_TIME
    }

    /// The latest key as it begins.
    pub(crate) fn begun_now(&self) -> Latest
        ensures { result ≡ begun_now self.now }
    {
        Latest {
            held: HeldKey {
                key: self.held.key,
                begun: true,
            },
            since_begun: 0,
        }
    }
}
