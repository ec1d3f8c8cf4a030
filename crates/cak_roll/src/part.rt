//! What an event of two groups is in one of them.

use lan_core::Event;

/// What an event of both groups is in one of them.
#[derive(Drop)]
pub enum Part {
    /// No event.
    Nothing,
    /// One event.
    One(Event),
    /// A claim that gets a packet number, and then its emission.
    Sent { station: u8, user: u32, pn: u32 },
}

impl Part {
    ghost use Rattle.std.specs.Prelude.{◌↔◌, ◌≡◌, [], IsTrue};
    ghost use Rattle.cak_roll.specs.inside.Parts.{events_of_part};

    /// Whether there is no event.
    pub fn is_nothing(&self) -> bool
        ensures { IsTrue result ↔ (events_of_part self.now ≡ []) }
    {
        matches!(self, Part::Nothing)
    }
}
