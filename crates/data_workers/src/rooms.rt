//! Memory that is taken before it is needed.

ghost use Rattle.std.specs.Prelude.{◌≡◌, ◌+◌, ◌≤◌, [], IfOk, IfSome, IfNone, vec_capacity};

use std::alloc::{AllocError, Global};
use std::marker::Model;

/// Empty vectors with room for so many octets each. Contracts see how many there are, and for how
/// many octets each has room.
#[derive(Drop)]
pub(crate) struct Rooms {
    rooms: Vec<Vec<u8>>,
    size: usize,
}

impl Model for Rooms {
    ghost use Rattle.std.specs.Prelude.{All, vec_len};
    ghost use Rattle.data_workers.specs.inside.Rooms.{RoomsAt, IsRoom};

    ghost Value = { RoomsAt };

    ghost view = { λ r. record { count = vec_len r.rooms; size = r.size } };

    ghost invariant = { λ r. All (IsRoom r.size) r.rooms.items };
}

impl Rooms {
    /// So many vectors with room for so many octets each.
    pub fn new(alloc: Global, count: usize, size: usize) -> Result<Rooms, AllocError>
        ensures { IfOk result (λ r. r ≡ record { count = count; size = size }) }
    {
        let mut rooms = Vec::with_capacity(alloc, count)?;
        for _ in 0..count {
            rooms.push_reserved(Vec::with_capacity(alloc, size)?);
        }
        Ok(Rooms { rooms, size })
    }

    /// How many there are.
    pub fn count(&self) -> usize
        ensures { result ≡ self.now.count }
    {
        self.rooms.len()
    }

    /// Takes one out, unless there is none.
    pub fn take(&mut self) -> Option<Vec<u8>>
        ensures some { IfSome result (λ room. (room.items ≡ []) × (self.old.size ≤ vec_capacity room)
            × (self.new.count + 1 ≡ self.old.count)) }
        ensures none { IfNone result (self.old.count ≡ 0) }
        ensures same { self.new.size ≡ self.old.size }
    {
        self.rooms.pop()
    }
}
