//! A gate at which threads wait for each other.

use packet_claims::{Gate, Point};
use std::sync::atomic::AtomicUsize;
use std::sync::atomic::Ordering::SeqCst;
use std::thread;

/// A gate that holds whoever comes until so many have, for a bounded time, and counts those for whom
/// that was too short. A worker comes each time that it has loaded.
#[derive(Drop)]
pub struct Meeting {
    wanted: usize,
    come: AtomicUsize,
    late: AtomicUsize,
}

impl Meeting {
    /// A gate to which nobody has come.
    pub fn of(wanted: usize) -> Self {
        Meeting {
            wanted,
            come: AtomicUsize::new(0),
            late: AtomicUsize::new(0),
        }
    }

    /// Comes to the gate.
    pub fn meet(&self) {
        self.come.fetch_add(1, SeqCst);
        for _ in 0..10_000_000u32 {
            if self.come.load(SeqCst) >= self.wanted {
                return;
            }
            thread::yield_now();
        }
        self.late.fetch_add(1, SeqCst);
    }

    /// How often somebody came.
    pub fn come(&self) -> usize {
        self.come.load(SeqCst)
    }

    /// How often that was too early.
    pub fn late(&self) -> usize {
        self.late.load(SeqCst)
    }
}

impl Gate for Meeting {
    fn at(&self, point: Point) {
        if matches!(point, Point::Loaded { .. }) {
            self.meet();
        }
    }
}
