// What rounds of receiving share: how far a run has come, and a take of it. A part of the program `rounds`: what it prints is compared.
#![tactic(auto)]

use measure::checksum::Sum;
use receive::{RxQueue, Taken};

const BUFFER: usize = 2048;

// The record and the sum as far as a run has come, and the device's place.
// Kept: send_rounds has a Run of its own: its record is another, and it follows the last packet's end where this follows the device.
#[derive(Clone, Copy)]
pub struct Run {
    pub queue: RxQueue,
    pub sum: Sum,
    pub at: usize,
}

impl Run {
    pub fn start(size: usize) -> Run {
        let fresh = RxQueue::fresh(0, size, BUFFER);
        Run {
            queue: fresh.queue,
            sum: Sum::default().with(fresh.answer),
            at: 0,
        }
    }

    pub fn end(self, ring: &[u64]) -> u64 {
        let q = self.queue;
        self.sum
            .with_record(q.shared)
            .with(q.buffer)
            .with_each(ring)
            .0
    }

    // Kept: docs/BENCH.md subtracts an idle run of the same loop; a closure would hold this very test, here and in post, burst, send, reclaim, ask, look_up.
    // A take; in an idle run a packet that was seen before.
    pub fn take(self, ring: &[u64], list: &[u64], seen: Taken, idle: bool) -> Taken {
        if idle {
            seen
        } else {
            self.queue.take(ring, list)
        }
    }
}
