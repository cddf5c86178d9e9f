// The lines of a script that are for the receive queue and take no packet: its record, how much of its memory is lent, and posts. A part
// of the program `probe`: what it prints is compared.
#![tactic(auto)]

use command::Command;
use parts::store;
use receive::RxQueue;
use ring::Queue;
use script::{Memory, Numbers, OUT, RING, Row, SLOTS, asked_row, fresh_row, queue_of, queue_row};

// The receive queue, its memory, and the burst's list.
#[derive(Clone, Copy)]
pub struct Rx {
    pub queue: RxQueue,
    pub memory: Memory<u64, u64, RING, SLOTS>,
    pub out: [u64; OUT],
}

impl Rx {
    // Nothing asked for yet, and nothing lent.
    pub fn new() -> Rx {
        Rx {
            queue: RxQueue {
                shared: Queue::empty(0, 0),
                buffer: 0,
            },
            memory: Memory::of([0; RING], [0; SLOTS]),
            out: [0; OUT],
        }
    }

    // A fresh queue has its whole memory lent, where it is one.
    fn fresh(&mut self, numbers: &Numbers) -> Row {
        let fresh = RxQueue::fresh(
            numbers[0] as usize,
            numbers[1] as usize,
            numbers[2] as usize,
        );
        let shared = fresh.queue.shared;
        self.queue = fresh.queue;
        if fresh.answer.is_ok() {
            self.memory
                .lend(shared.size.wrapping_add(shared.size), shared.size);
        }
        fresh_row(fresh.answer, shared, fresh.queue.buffer)
    }

    // The record and the lent lengths that a line hands in.
    fn hand_in(&mut self, numbers: &Numbers) {
        self.queue = RxQueue {
            shared: queue_of(numbers),
            buffer: numbers[6] as usize,
        };
        self.memory.lend(numbers[7] as usize, numbers[8] as usize);
    }

    fn post(&mut self, address: u64) -> Row {
        let queue = self.queue;
        let (ring, list) = self.memory.lent_mut();
        let posted = queue.post(ring, list, address);
        self.queue = posted.queue;
        queue_row(posted.answer, posted.queue.shared)
    }

    // What a line leaves of the memory and the record, where it is answered by nothing.
    fn set(&mut self, command: Command, numbers: &Numbers) {
        let i = numbers[0] as usize;
        match command {
            Command::RxSet => self.hand_in(numbers),
            Command::RxPoke => store(&mut self.memory.ring, i, numbers[1]),
            Command::RxList => store(&mut self.memory.list, i, numbers[1]),
            _ => {}
        }
    }

    // The commands of the receive queue that take no packet; any other leaves all as it is.
    pub fn line(&mut self, command: Command, numbers: &Numbers) -> Option<Row> {
        self.set(command, numbers);
        match command {
            Command::Rx => Some(self.fresh(numbers)),
            Command::Post => Some(self.post(numbers[0])),
            Command::RxTail => Some(asked_row(self.queue.tail_value())),
            Command::RxReg => Some(asked_row(self.queue.tail_register())),
            Command::RxSum => Some(self.memory.sums()),
            _ => None,
        }
    }
}
