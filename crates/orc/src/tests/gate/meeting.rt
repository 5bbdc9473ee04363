//! A gate at which two jobs meet.

use orc_io::Gate;
use std::sync::atomic::{AtomicU64, Ordering};
use std::thread;

/// How often a job looks whether the other has come.
const TURNS: u32 = 1 << 30;

/// It holds the jobs of the units 0 and 1, each until one of the other has come.
#[derive(Drop)]
pub struct Meeting {
    first: AtomicU64,
    second: AtomicU64,
    /// How many jobs gave up waiting.
    alone: AtomicU64,
}

impl Meeting {
    /// Nobody has come.
    pub fn new() -> Meeting {
        Meeting {
            first: AtomicU64::new(0),
            second: AtomicU64::new(0),
            alone: AtomicU64::new(0),
        }
    }

    /// Each job that came met the other.
    pub fn has_met(&self) -> bool {
        self.first.load(Ordering::SeqCst) > 0
            && self.second.load(Ordering::SeqCst) > 0
            && self.alone.load(Ordering::SeqCst) == 0
    }
}

/// A job has come, and waits for the other.
fn meet(mine: &AtomicU64, other: &AtomicU64, alone: &AtomicU64) {
    mine.store(1, Ordering::SeqCst);
    for _turn in 0..TURNS {
        if other.load(Ordering::SeqCst) > 0 {
            return;
        }
        thread::yield_now();
    }
    alone.store(1, Ordering::SeqCst);
}

impl Gate for Meeting {
    fn at(&self, job: u32) {
        match job {
            0 => meet(&self.first, &self.second, &self.alone),
            1 => meet(&self.second, &self.first, &self.alone),
            _ => (),
        }
    }
}
