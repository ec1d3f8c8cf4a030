//! The message numbers that were sent less than the life time ago.

ghost use Rattle.std.specs.Prelude.{◌≡◌};
ghost use Rattle.peer_lists.specs.inside.Countdowns.{no_numbers, numbers_after_tick, numbers_after_sent, is_number_recent};

use lan_base::LIFE_TIME;

/// How many numbers can have been sent less than the life time ago: one in each tick.
const SENT: usize = LIFE_TIME as usize;

/// The life time, where a countdown begins.
pub const WHOLE_LIFE: u8 = LIFE_TIME as u8;

/// The message numbers of a life, which rise by one and of which at most one is sent in a tick.
#[derive(Clone, Copy)]
pub struct SentNumbers {
    /// The number that was sent last, 0 before the first.
    pub last: u32,
    /// Whether none was sent since the last tick.
    pub may_send: bool,
    /// At the rest of a number by the life time: in how many ticks that number, if it is the last
    /// one with this rest, is as old as the life time.
    pub left: [u8; SENT],
}

impl SentNumbers {
    /// Before any number is sent.
    pub fn none() -> SentNumbers
        ensures { result ≡ no_numbers }
    {
        SentNumbers {
            last: 0,
            may_send: true,
            left: [0; SENT],
        }
    }

    /// A tick passes.
    pub fn tick(&mut self)
        ensures { self.new ≡ numbers_after_tick self.old }
    {
        self.may_send = true;
        for left in self.left.iter_mut() {
            *left = left.saturating_sub(1);
        }
    }

    /// A number is sent.
    pub fn send(&mut self, mn: u32)
        ensures { self.new ≡ numbers_after_sent mn self.old }
    {
        self.last = mn;
        self.may_send = false;
        self.left[mn as usize % SENT] = WHOLE_LIFE;
    }

    /// Whether a number is one of the last ones and was sent less than the life time ago.
    pub fn is_recent(&self, mn: u32) -> bool
        ensures { result ≡ is_number_recent self.now mn }
    {
        mn <= self.last && self.last - mn < LIFE_TIME && self.left[mn as usize % SENT] > 0
    }
}
