// The receive queue of the driver core: fresh queues and the tail (queue), post, take, and burst, many packets in one poll (poll).
#![tactic(auto)]

use burst::PACKET_NUMBERS;
use ring::Queue;
use rules::Answer;
use scan::PACKET_SLOTS;
use writeback::WriteBack;

mod poll;
mod post;
mod queue;
mod take;

// A burst is of 1 to 32 packets.
pub const BURST_PACKETS: usize = 32;

// Its list has three numbers for each of them.
pub const BURST_NUMBERS: usize = PACKET_NUMBERS * BURST_PACKETS;

// What every queue's record has, and the size of a buffer.
#[derive(Clone, Copy, Debug, PartialEq, Eq)]
pub struct RxQueue {
    pub shared: Queue,
    pub buffer: usize,
}

// Kept: a struct for each call, by the names that docs/MANUAL.md gives them.
// Kept: zeros beside a refusal, since `fresh_of` and `take_refused` (proofs/Takes) say them; Burst has packets and examined beside 4 and 5 (`BurstAs`).
#[derive(Clone, Copy, Debug, PartialEq, Eq)]
pub struct Fresh {
    pub answer: Answer,
    pub queue: RxQueue,
}

#[derive(Clone, Copy, Debug, PartialEq, Eq)]
pub struct Posted {
    pub answer: Answer,
    pub queue: RxQueue,
}

// A packet handed up: places past its slots are 0, and the fields are those of its last slot.
// Kept: two arrays and a count, since `Told` names both lists (`slot_address`, `slot_length`) and says that the places past the slots are 0.
#[derive(Clone, Copy, Debug, PartialEq, Eq)]
pub struct Packet {
    pub count: usize,
    pub total: usize,
    pub addresses: [u64; PACKET_SLOTS],
    pub lengths: [usize; PACKET_SLOTS],
    pub last: WriteBack,
}

#[derive(Clone, Copy, Debug, PartialEq, Eq)]
pub struct Taken {
    pub answer: Answer,
    pub queue: RxQueue,
    pub packet: Packet,
}

// What many takes come to: the answer that stopped them, the record carried on, the packets taken and the slots examined.
#[derive(Clone, Copy, Debug, PartialEq, Eq)]
pub struct Burst {
    pub answer: Answer,
    pub queue: RxQueue,
    pub packets: usize,
    pub examined: usize,
}
