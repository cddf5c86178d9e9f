// The record's lines, a fresh queue, the tail value and its register.
ghost use Rattle.std.specs.Prelude.{◌≡◌};
ghost use Rattle.receive.specs.Queue.{record_ok, lent_ok, fresh_of, tail_value_of, tail_register_of};

use crate::{Fresh, RxQueue};
use ring::Queue;
use rules::Refusal;

const BUFFER_LEAST: usize = 1024;

const BUFFER_MOST: usize = 16256;

const BUFFER_STEP: usize = 128;

// The tail register of queue 0.
const TAIL_REGISTER: u16 = 0x2000;

impl RxQueue {
    // An empty queue, or 1 with an all-zero record where a number is outside the lines.
    // Kept: transmit has its twin of this, of the tail value and of the register; what they share is in ring, and a trait would have all three again.
    pub fn fresh(queue: usize, size: usize, buffer: usize) -> Fresh
        ensures { result ≡ fresh_of queue size buffer }
    {
        let queue = RxQueue {
            shared: Queue::empty(queue, size),
            buffer,
        };
        if queue.record_ok() {
            Fresh {
                answer: Ok(()),
                queue,
            }
        } else {
            Fresh {
                answer: Err(Refusal::WrongRecord),
                queue: RxQueue {
                    shared: Queue::empty(0, 0),
                    buffer: 0,
                },
            }
        }
    }

    fn record_ok(self) -> bool
        ensures { result ≡ record_ok self }
    {
        let buffer = self.buffer;
        self.shared.ok()
            & (((BUFFER_LEAST <= buffer) & (buffer <= BUFFER_MOST)) & (buffer % BUFFER_STEP == 0))
    }

    // The record, and the lengths of the lent ring and companion list.
    // Kept: two lengths here, and ring and list in post, take and burst, since 01 lends the ring and its companion list as slices, one by one.
    pub(crate) fn lent_ok(self, ring_length: usize, list_length: usize) -> bool
        ensures { result ≡ lent_ok self ring_length list_length }
    {
        if self.record_ok() {
            let size = self.shared.size;
            (ring_length == 2 * size) & (list_length == size)
        } else {
            false
        }
    }

    // The tail value, or 1 where the record breaks a line.
    pub fn tail_value(self) -> Result<usize, Refusal>
        ensures { result ≡ tail_value_of self }
    {
        self.shared.tail_value(self.record_ok())
    }

    // The register's offset, or 1 where the record breaks a line.
    pub fn tail_register(self) -> Result<usize, Refusal>
        ensures { result ≡ tail_register_of self }
    {
        self.shared.tail_register(self.record_ok(), TAIL_REGISTER)
    }
}
