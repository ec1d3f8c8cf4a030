//! Workers of a station that claim at once, and their logs.

ghost use Rattle.std.specs.Prelude.{◌≡◌, IfOk};
ghost use Rattle.lan_base.specs.Ranges.{IsUserData};

use crate::table::opened;
use anyhow::bail;
use association_slots::{Control, SlotTable};
use data_workers::{Log, Sender, Worker, work};
use lan_base::{Mac, Octets, Sci, UserFrame};
use packet_claims::OpenGate;
use std::alloc::{AllocError, Global};
use std::thread;
use std::thread::Threads;

/// How many workers each station has, as many as may have seats.
pub const WORKERS: u32 = 8;

/// The user data of each frame.
const USER_DATA: [u8; 4] = [0x88, 0xb5, 0, 1];

/// A table, and the control of it.
#[derive(Drop)]
struct Desk<'a> {
    table: &'a SlotTable,
    control: Control,
    ghost here: { control.table ≡ table.now },
}

impl<'a> Desk<'a> {
    /// A worker of a station, with so many jobs. Eight seats may be out.
    fn hire(&mut self, alloc: Global, station: u8, jobs: u32) -> anyhow::Result<Hand<'a>> {
        let sender = sender(alloc, station)?;
        if !self.control.has_room() {
            bail!("eight seats are out");
        }
        let seat = self.control.seat(self.table);
        match Worker::new(alloc, sender, seat, jobs) {
            Ok(worker) => Ok(Hand {
                table: self.table,
                worker,
            }),
            Err((_, err)) => Err(err.into()),
        }
    }
}

/// A worker, and the table of its seat.
#[derive(Drop)]
struct Hand<'a> {
    table: &'a SlotTable,
    worker: Worker,
    ghost here: { worker.seat.table ≡ table.now },
}

impl Hand<'_> {
    /// Does every job.
    fn work(&mut self) {
        work(self.table, &mut self.worker, &OpenGate);
    }

    /// What came of the jobs.
    fn finish(self) -> Log {
        let Hand { table: _, worker } = self;
        let (_, log) = worker.finish();
        log
    }
}

/// Appends the logs of the workers of a station, with so many jobs each, which claim at once under
/// its one key.
pub fn append_logs<R: Threads + Sync>(
    rt: &R,
    alloc: Global,
    station: u8,
    jobs: u32,
    logs: &mut Vec<Log>,
) -> anyhow::Result<()> {
    let (table, control) = opened(alloc)?;
    let mut desk = Desk {
        table: &table,
        control,
    };
    let mut hands = Vec::new(alloc);
    for _ in 0..WORKERS {
        hands.push(desk.hire(alloc, station, jobs)?)?;
    }
    thread::for_each_mut(
        rt,
        hands.as_mut_slice(),
        WORKERS as usize,
        &|_, hand| hand.work(),
    );
    for hand in hands {
        logs.push(hand.finish())?;
    }
    Ok(())
}

/// What a station sends.
fn sender(alloc: Global, station: u8) -> Result<Sender, AllocError>
    ensures { IfOk result (λ s. IsUserData s.user.body) }
{
    let user = UserFrame {
        destination: Mac([0xff; 6]),
        body: Octets::from_slice(alloc, &USER_DATA)?,
    };
    Ok(Sender {
        station,
        sci: Sci([2, 0, 0, 0, 0, station, 0, 1]),
        user,
    })
}
