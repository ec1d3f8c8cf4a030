//! A worker.

ghost use Rattle.std.specs.Prelude.{◌≡◌, ◌+◌, ◌<◌, ◌≤◌, [], IfOk, IfErr, length, vec_capacity};
ghost use Rattle.association_slots.specs.declared.view.SeatView.{SeatView};
ghost use Rattle.data_workers.specs.Workers.{IsSame, Logged};
ghost use Rattle.lan_base.specs.Ranges.{IsUserData};

use crate::entry::{Entry, entry_for};
use crate::log::Log;
use crate::prepared::PreparedKey;
use crate::rooms::Rooms;
use crate::sender::Sender;
use association_slots::{SlotTable, WorkerSeat};
use gcm_frames::PROTECTION_OCTETS;
use packet_claims::{Gate, claim};
use std::alloc::{AllocError, Global};
use std::marker::Model;

/// What protects the frame of one sender as often as it has jobs, each time under a claim of its
/// seat. Contracts see its sender and its seat, how many jobs are left, and what its log has.
#[derive(Drop)]
pub struct Worker {
    sender: Sender,
    seat: WorkerSeat,
    /// The key of the last card that was claimed.
    last: Option<PreparedKey>,
    /// The memory of the frames, one room for each job that is left.
    rooms: Rooms,
    log: Vec<Entry>,
}

impl Model for Worker {
    ghost use Rattle.data_workers.specs.Workers.{WorkerAt};
    ghost use Rattle.data_workers.specs.inside.Rooms.{IsReady};

    ghost Value = { WorkerAt };

    ghost view = { λ w. record {
      sender = w.sender;
      seat = w.seat;
      jobs = w.rooms.count;
      log = w.log.items;
    } };

    ghost invariant = { λ w. IsReady w.sender.user.body w.rooms w.log };
}

impl Worker {
    /// A worker with so many jobs, which takes the memory of its whole log and of each frame. An
    /// `Err` gives the seat back.
    pub fn new(
        alloc: Global,
        sender: Sender,
        seat: WorkerSeat,
        jobs: u32,
    ) -> Result<Worker, (WorkerSeat, AllocError)>
        requires { IsUserData sender.user.body }
        ensures ok { IfOk result (λ w. w ≡ record {
          sender = sender;
          seat = seat;
          jobs = jobs;
          log = [];
        }) }
        ensures logged { IfOk result (Logged seat.view) }
        ensures err { IfErr result (λ e. e.0 ≡ seat) }
    {
        match memory(alloc, jobs, sender.user.body.len() + PROTECTION_OCTETS) {
            Ok((log, rooms)) => Ok(Worker {
                sender,
                seat,
                last: None,
                rooms,
                log,
            }),
            Err(err) => Err((seat, err)),
        }
    }

    /// The place of its station.
    pub fn station(&self) -> u8
        ensures { result ≡ self.now.sender.station }
    {
        self.sender.station
    }

    /// How many jobs are left.
    pub fn jobs(&self) -> usize
        ensures { result ≡ self.now.jobs }
    {
        self.rooms.count()
    }

    /// Does one job: one claim, and the frame protected under the card of that claim.
    pub(crate) fn job<G: Gate>(&mut self, table: &SlotTable, gate: &G)
        requires here { self.old.seat.table ≡ table.now }
        requires left { 0 < self.old.jobs }
        ensures same { IsSame self.old self.new }
        ensures one { (self.new.jobs + 1 ≡ self.old.jobs)
            × (length self.new.log ≡ length self.old.log + 1) }
        ensures logged { (v : SeatView) → Logged v self.old → Logged v self.new }
    {
        let Some(room) = self.rooms.take() else {
            return;
        };
        let answer = claim(table, &mut self.seat, gate);
        let entry = entry_for(&self.sender, answer, room, &mut self.last);
        self.log.push_reserved(entry);
    }

    /// Gives up the worker for its seat and its log.
    pub fn finish(self) -> (WorkerSeat, Log)
        ensures { (result.0 ≡ self.seat) × (result.1 ≡ self.log) }
    {
        let Worker {
            sender: _,
            seat,
            last: _,
            rooms: _,
            log,
        } = self;
        (seat, Log::of(log))
    }
}

/// An empty log with room for so many entries, and as many vectors with room for so many octets.
fn memory(alloc: Global, jobs: u32, size: usize) -> Result<(Vec<Entry>, Rooms), AllocError>
    ensures { IfOk result (λ m. (m.0.items ≡ []) × (jobs ≤ vec_capacity m.0)
        × (m.1 ≡ record { count = jobs; size = size })) }
{
    let log = Vec::with_capacity(alloc, jobs as usize)?;
    let rooms = Rooms::new(alloc, jobs as usize, size)?;
    Ok((log, rooms))
}
