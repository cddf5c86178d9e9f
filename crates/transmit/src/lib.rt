// The transmit queue of the driver core: fresh queues and the tail (queue), send, reclaim.
#![tactic(auto)]

mod queue;
mod reclaim;
mod send;

use ring::Queue;
use rules::Answer;

// What the receive queue has too, and the maximum frame, which is the transmit queue's own.
#[derive(Clone, Copy, Debug, PartialEq, Eq)]
pub struct TxQueue {
    pub shared: Queue,
    pub frame: usize,
}

// Kept: zeros beside a refusal here, in Sent and in Reclaimed (`fresh_of`, `send_refused`, `reclaim_refused`).
#[derive(Clone, Copy, Debug, PartialEq, Eq)]
pub struct Fresh {
    pub answer: Answer,
    pub queue: TxQueue,
}

// The slots that an accepted send took.
#[derive(Clone, Copy, Debug, PartialEq, Eq)]
pub struct Sent {
    pub answer: Answer,
    pub queue: TxQueue,
    pub slots: usize,
}

#[derive(Clone, Copy, Debug, PartialEq, Eq)]
pub struct Reclaimed {
    pub answer: Answer,
    pub queue: TxQueue,
    pub token: u64,
    pub count: usize,
}
