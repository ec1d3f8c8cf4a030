//! The clock by which packets are seen.

ghost use Rattle.std.specs.Prelude.{◌≡◌, ◌+◌, ◌*◌, ◌++◌, ◌∷◌, [], if◌then◌else◌, ℕ, List};
ghost use Rattle.lan_core.specs.declared.fact.Fact.{Fact};
ghost use Rattle.transcript_capture.specs.Recording.{IsClockAfter, IsClockAt};

use lan_core::Fact;
use transcript_reader::{is_own, moves_time};

/// A time in tenths of a second. Seconds are those that a record's field holds, of 32 bits.
#[derive(Clone, Copy, Debug, PartialEq, Eq)]
pub struct Clock {
    /// Seconds.
    pub seconds: u32,
    /// Tenths of a second beside them.
    pub tenths: u8,
    /// Whether the last tick was the first station's own in the first group.
    pub own: bool,
}

impl Clock {
    /// No tick was seen.
    pub fn new() -> Clock
        ensures { IsClockAfter [] result }
    {
        Clock {
            seconds: 0,
            tenths: 0,
            own: false,
        }
    }

    /// A fact more: a tenth of a second passes where it moves time on.
    pub(crate) fn hear(&mut self, fact: &Fact)
        ensures { (earlier : List Fact) → IsClockAfter earlier self.old
            → IsClockAfter (earlier ++ fact.now ∷ []) self.new }
    {
        let own = is_own(self.own, fact);
        self.go_on(moves_time(self.own, fact));
        self.own = own;
    }

    /// A tenth of a second passes, if time moves on.
    fn go_on(&mut self, moves: bool)
        ensures at { (n : ℕ) → IsClockAt n self.old
            → IsClockAt (if moves then n + 1 else n) self.new }
        ensures own { self.new.own ≡ self.old.own }
    {
        if moves {
            self.tick();
        }
    }

    /// A tenth of a second passes.
    fn tick(&mut self)
        ensures at { (n : ℕ) → IsClockAt n self.old → IsClockAt (n + 1) self.new }
        ensures own { self.new.own ≡ self.old.own }
    {
        if self.tenths < 9 {
            self.tenths += 1;
        } else {
            self.tenths = 0;
            self.seconds = self.seconds.wrapping_add(1);
        }
    }

    /// The microseconds beside the seconds.
    pub(crate) fn micros(self) -> u32
        ensures { result ≡ self.tenths * 100000 }
    {
        u32::from(self.tenths) * 100_000
    }
}
