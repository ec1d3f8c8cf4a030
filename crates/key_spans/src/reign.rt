//! A time in which a station serves.

ghost use Rattle.std.specs.Prelude.{◌≡◌};
ghost use Rattle.key_spans.specs.Leaving.{resigned};
ghost use Rattle.key_spans.specs.Reigns.{ruled};

use tick_columns::Timed;

/// A time in which a station serves, in ticks: from its election of itself to where it is over.
#[derive(Clone, Copy)]
pub struct Reign {
    pub from: u32,
    /// None where it still serves.
    pub to: Option<u32>,
}

impl Timed for Reign {
    ghost time = { λ reign. reign.from };

    fn at(&self) -> u32 {
        self.from
    }
}

impl Reign {
    /// The reign where its station left its group at this tick, if it did: one that is over stays as it is.
    pub fn resigned(self, left: Option<u32>) -> Reign
        ensures { result ≡ resigned left self }
    {
        match left {
            Some(at) => Reign {
                to: self.to.or(Some(at.max(self.from))),
                ..self
            },
            None => self,
        }
    }

    /// The reign behind a fact of this time by which it is over, or which is nothing to it.
    pub(crate) fn ruled(self, at: u32, over: bool) -> Reign
        ensures { result ≡ ruled at over self }
    {
        if over {
            return Reign {
                to: self.to.or(Some(at)),
                ..self
            };
        }
        self
    }
}
