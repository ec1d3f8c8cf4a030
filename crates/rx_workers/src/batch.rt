//! A batch of received frames is checked.

ghost use Rattle.std.specs.Prelude.{◌≡◌, ◌≤◌, ℕ, All, List, Ok, IfOk, length, map};
ghost use Rattle.lan_base.specs.declared.address.Sci.{Sci};
ghost use Rattle.lan_base.specs.Ranges.{most_frame_octets};
ghost use Rattle.rx_slots.specs.Answers.{checked as checked_answer};
ghost use Rattle.rx_slots.specs.Histories.{Receiving, standing_key};
ghost use Rattle.rx_slots.specs.Standing.{StandsFor};

use rayon::current_num_threads;
use rayon::prelude::*;
use rx_slots::{Checked, RxSlots};
use std::alloc::{AllocError, Global};
use std::marker::Model;
use std::thread::Threads;

/// The least count of frames that is worth a thread of its own.
const PIECE: usize = 64;

/// What the frames of a batch were answered as far as their tags, in their order. Contracts see it
/// as the list.
#[derive(Debug, Drop)]
pub struct Batch {
    answers: Vec<Checked>,
}

impl Model for Batch {
    ghost use Rattle.std.specs.Prelude.{List};
    ghost use Rattle.rx_slots.specs.declared.arrival.Checked.{Checked};

    ghost Value = { List Checked };

    ghost view = { λ b. b.answers.items };
}

impl Batch {
    /// The answers, in the order of the frames.
    pub fn into_answers(self) -> Vec<Checked>
        ensures { result.items ≡ self }
    {
        self.answers
    }
}

/// Whether so many frames are worth a thread besides this one: there are that many, and another
/// processor.
pub fn is_worth_threads(rt: &impl Threads, frames: u32) -> bool {
    frames as usize >= 2 * PIECE && current_num_threads(rt) > 1
}

/// Answers the frames of a batch as far as their tags, each as `check` does, by as many threads as
/// there are processors. No frame is longer than a frame may be.
pub fn check_batch(
    rt: &(impl Threads + Sync),
    alloc: Global,
    slots: &RxSlots,
    frames: &[&[u8]],
) -> Result<Batch, AllocError>
    requires { All (λ frame. length frame.now ≤ most_frame_octets) frames.now }
    ensures { (own : Sci) (window : ℕ) (h : List Receiving) → StandsFor own window slots.now h
        → IfOk result (λ batch. batch
        ≡ map (λ frame. checked_answer own (standing_key h) frame.now) frames.now) }
{
    let collected = frames
        .par_iter()
        .with_min_len(PIECE)
        .map(
            |frame: &&[u8]| -> Result<Checked, AllocError>
                requires { length frame.now.now ≤ most_frame_octets }
                ensures { (own : Sci) (window : ℕ) (h : List Receiving)
                    → StandsFor own window slots.entry.now h
                    → IfOk result (λ checked. checked
                    ≡ checked_answer own (standing_key h) frame.now.now) }
            { slots.check(frame) },
        )
        .collect::<Result<Vec<Checked>, AllocError>>(rt, alloc)?;
    match collected {
        Ok(answers) => Ok(Batch { answers }),
        Err(error) => Err(error),
    }
}
