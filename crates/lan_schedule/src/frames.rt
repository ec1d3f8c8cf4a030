//! The frames of the air, as far as flow rounds look at them.

ghost use Rattle.std.specs.Prelude.{◌≡◌, ◌+◌, ◌-◌, ◌++◌, ◌∷◌, [], if◌then◌else◌, length, IfOk, OnOk};
ghost use Rattle.lan_schedule.specs.World.{puts, put_by, marked_at, sender_at, Flow};
ghost use Rattle.lan_schedule.specs.Lines.{due_of, round_after};

use lan_core::Fact;
use std::alloc::{AllocError, Global};
use std::marker::Model;

/// A frame of the air: its number, its sender, the count of flow rounds when it came there, and
/// whether it waits for no round any more.
#[derive(Clone, Copy, Debug)]
pub struct Put {
    pub number: u32,
    pub sender: u8,
    pub at: u64,
    pub marked: bool,
}

/// The frames of the air by number, and the count of flow rounds. Contracts see both.
#[derive(Drop)]
pub struct Frames {
    frames: Vec<Put>,
    rounds: u64,
    /// All frames before this place are marked.
    first: usize,
}

impl Model for Frames {
    ghost use Rattle.lan_schedule.specs.World.{Flow};
    ghost use Rattle.lan_schedule.specs.inside.Frames.{AreMarked, AreInOrder};

    ghost Value = { Flow };

    ghost view = { λ f. record { frames = f.frames.items; rounds = f.rounds } };

    ghost invariant = { λ f. AreMarked f.first f.frames.items
        × AreInOrder f.rounds f.frames.items };
}

impl Frames {
    /// No frame came, and no round began.
    pub fn new(alloc: Global) -> Self
        ensures { result ≡ record { frames = []; rounds = 0 } }
    {
        Frames {
            frames: Vec::new(alloc),
            rounds: 0,
            first: 0,
        }
    }

    /// How many frames came.
    pub fn len(&self) -> usize
        ensures { result ≡ length self.now.frames }
    {
        self.frames.len()
    }

    /// A round begins. Rounds are counted as far as they can be.
    pub fn begin_round(&mut self)
        ensures { self.new
            ≡ record { frames = self.old.frames; rounds = round_after self.old.rounds } }
    {
        self.rounds = self.rounds.saturating_add(1);
    }

    /// The frames that facts put on the air come.
    pub fn put(&mut self, facts: &[Fact]) -> Result<(), AllocError>
        ensures { OnOk result (self.new
            ≡ record {
              frames = self.old.frames ++ puts self.old.rounds facts.now;
              rounds = self.old.rounds;
            }) }
    {
        for fact in facts {
            self.put_one(fact)?;
        }
        Ok(())
    }

    /// The frame that a fact puts on the air comes, if there is one.
    fn put_one(&mut self, fact: &Fact) -> Result<(), AllocError>
        ensures { OnOk result (self.new
            ≡ record {
              frames = self.old.frames ++ put_by self.old.rounds fact.now;
              rounds = self.old.rounds;
            }) }
    {
        if let Fact::Framed {
            number,
            station,
            ..
        } = fact
        {
            self.frames.push(Put {
                number: *number,
                sender: *station,
                at: self.rounds,
                marked: false,
            })?;
        }
        Ok(())
    }

    /// The frame of a number, from 1, waits for no round any more.
    pub fn mark(&mut self, number: u32)
        ensures { self.new
            ≡ record { frames = marked_at (number - 1) self.old.frames; rounds = self.old.rounds } }
    {
        let place = number.saturating_sub(1) as usize;
        if place < self.frames.len() {
            self.frames[place].marked = true;
        }
    }

    /// The sender of the frame of a number, from 1.
    pub fn sender(&self, number: u32) -> u8
        ensures { result ≡ sender_at (number - 1) self.now.frames }
    {
        match self.frames.get(number.saturating_sub(1) as usize) {
            Some(put) => put.sender,
            None => 0,
        }
    }

    /// The numbers of the frames whose round has come.
    pub fn due(&mut self, alloc: Global, lag: u32) -> Result<Vec<u32>, AllocError>
        ensures due { IfOk result (λ numbers. numbers.items
            ≡ due_of lag self.old.rounds self.old.frames) }
        ensures kept { self.new ≡ self.old }
    {
        self.pass_marked();
        self.waiting(alloc, lag)
    }

    /// The same, where the marked frames that stand first are passed by.
    fn waiting(&self, alloc: Global, lag: u32) -> Result<Vec<u32>, AllocError>
        ensures { IfOk result (λ numbers. numbers.items
            ≡ due_of lag self.now.rounds self.now.frames) }
    {
        let mut numbers = Vec::new(alloc);
        for place in self.first..self.frames.len() {
            let put = self.frames[place];
            if self.rounds.saturating_sub(put.at) < u64::from(lag) {
                return Ok(numbers);
            }
            note(&mut numbers, put)?;
        }
        Ok(numbers)
    }

    /// Passes by the marked frames that stand first.
    fn pass_marked(&mut self)
        ensures { self.new ≡ self.old }
    {
        while self.first < self.frames.len() && self.frames[self.first].marked {
            self.first += 1;
        }
    }
}

/// Notes the number of a frame that isn't marked.
fn note(numbers: &mut Vec<u32>, put: Put) -> Result<(), AllocError>
    ensures { OnOk result (numbers.new.items
        ≡ numbers.old.items ++ (if put.marked then [] else put.number ∷ [])) }
{
    if !put.marked {
        numbers.push(put.number)?;
    }
    Ok(())
}
