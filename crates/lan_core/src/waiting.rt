//! Protected frames that wait to be put on the air.

ghost use Rattle.std.specs.Prelude.{◌≡◌, ◌++◌, ◌∷◌, [], option_to_list, IfNone, OnOk, OnErr};

use lan_base::Octets;
use std::alloc::{AllocError, Global};
use std::collections::VecDeque;
use std::marker::Model;

/// A protected frame, and the place of the station that sends it.
#[derive(Drop)]
pub struct Sealed {
    pub station: u8,
    pub octets: Octets,
}

/// The protected frames that are not on the air yet, oldest first. Contracts see the list.
#[derive(Drop)]
pub struct Queue {
    frames: VecDeque<Sealed>,
}

impl Model for Queue {
    ghost use Rattle.std.specs.Prelude.{List};
    ghost use Rattle.lan_core.specs.declared.waiting.Sealed.{Sealed};

    ghost Value = { List Sealed };

    ghost view = { λ q. q.frames.items };
}

impl Queue {
    /// An empty queue, which takes no memory.
    pub fn new(alloc: Global) -> Queue
        ensures { result ≡ [] }
    {
        Queue {
            frames: VecDeque::new(alloc),
        }
    }

    /// Appends a frame. An error leaves the queue as it was.
    pub fn push(&mut self, frame: Sealed) -> Result<(), AllocError>
        ensures ok { OnOk result (self.new ≡ self.old ++ frame ∷ []) }
        ensures err { OnErr result (self.new ≡ self.old) }
    {
        self.frames.push_back(frame)?;
        Ok(())
    }

    /// Appends all frames of another queue. An error leaves the queue as it was.
    pub fn append(&mut self, mut frames: Queue) -> Result<(), AllocError>
        ensures ok { OnOk result (self.new ≡ self.old ++ frames) }
        ensures err { OnErr result (self.new ≡ self.old) }
    {
        self.frames.append(&mut frames.frames)
    }

    /// Takes the oldest frame, if there is one.
    pub fn pop(&mut self) -> Option<Sealed>
        ensures front { self.old ≡ option_to_list result ++ self.new }
        ensures empty { IfNone result (self.old ≡ []) }
    {
        self.frames.pop_front()
    }
}
