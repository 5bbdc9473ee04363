//! A gate that holds jobs back a little, so that others come between.

use orc_io::Gate;
use std::thread;

/// A gate at which a job lets other threads go first up to so many times.
#[derive(Drop)]
pub struct LabGate {
    pub most: u32,
}

impl Gate for LabGate {
    fn at(&self, job: u32) {
        let times = job.wrapping_mul(7) % self.most.max(1);
        for _ in 0..times {
            thread::yield_now();
        }
    }
}
