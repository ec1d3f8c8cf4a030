//! What is kept of one group beside its run.

ghost use Rattle.std.specs.Prelude.{◌≡◌, ◌-◌, ◌++◌, [], get_or, length, OnOk};
ghost use Rattle.twin_schedule.specs.inside.Telling.{sender_in, senders_in};

use lan_base::Name;
use lan_core::Fact;
use std::alloc::{AllocError, Global};

/// The names of a group's stations, in the order in which they joined it; the senders of its frames
/// by their places there; and how many of its frames were spread.
#[derive(Drop)]
pub struct Party {
    pub names: Vec<Name>,
    pub senders: Vec<u8>,
    pub spread: u32,
}

impl Party {
    /// Nobody joined the group.
    pub fn new(alloc: Global) -> Self
        ensures names { result.names.items ≡ [] }
        ensures senders { result.senders.items ≡ [] }
        ensures spread { result.spread ≡ 0 }
    {
        Party {
            names: Vec::new(alloc),
            senders: Vec::new(alloc),
            spread: 0,
        }
    }

    /// How many frames the air of the group has.
    pub fn frame_count(&self) -> usize
        ensures { result ≡ length self.now.senders.items }
    {
        self.senders.len()
    }

    /// The place of the sender of a frame's number, from 1.
    pub fn sender(&self, number: u32) -> u8
        ensures { result ≡ get_or self.now.senders.items (number - 1) 0 }
    {
        number_at(&self.senders, number.saturating_sub(1) as usize)
    }
}

/// The number at a place, from 0, and 0 where there is none.
pub fn number_at(numbers: &[u8], place: usize) -> u8
    ensures { result ≡ get_or numbers.now place 0 }
{
    match numbers.get(place) {
        Some(number) => *number,
        None => 0,
    }
}

/// The senders of the frames that facts put on the air come.
pub fn put_senders(senders: &mut Vec<u8>, facts: &[Fact]) -> Result<(), AllocError>
    ensures { OnOk result (senders.new.items ≡ senders.old.items ++ senders_in facts.now) }
{
    for fact in facts {
        put_sender(senders, fact)?;
    }
    Ok(())
}

/// The sender of the frame that a fact puts on the air comes, if there is one.
fn put_sender(senders: &mut Vec<u8>, fact: &Fact) -> Result<(), AllocError>
    ensures { OnOk result (senders.new.items ≡ senders.old.items ++ sender_in fact.now) }
{
    if let Fact::Framed { station, .. } = fact {
        senders.push(*station)?;
    }
    Ok(())
}
