// The record's lines, a fresh queue, the tail value and its register.
ghost use Rattle.std.specs.Prelude.{◌≡◌};
ghost use Rattle.transmit.specs.Queue.{record_ok, lent_ok, fresh_of, tail_value_of, tail_register_of};

use crate::{Fresh, TxQueue};
use ring::Queue;
use rules::Refusal;

const FRAME_LEAST: usize = 1518;

const FRAME_MOST: usize = 9728;

// The tail register of queue 0.
const TAIL_REGISTER: u16 = 0;

impl TxQueue {
    // Answers 1 and an all-zero record, if a number breaks its line, or 0.
    // Kept: receive has its twin of this too; each has its own line of the record, and an all-zero record of its own.
    #[tactic(auto, unfolding(crate::specs::Queue::fresh_of))]
    pub fn fresh(queue: usize, size: usize, frame: usize) -> Fresh
        ensures { result ≡ fresh_of queue size frame }
    {
        let queue = TxQueue {
            shared: Queue::empty(queue, size),
            frame,
        };
        if !queue.record_ok() {
            return Fresh {
                answer: Err(Refusal::WrongRecord),
                queue: TxQueue {
                    shared: Queue::empty(0, 0),
                    frame: 0,
                },
            };
        }
        Fresh {
            answer: Ok(()),
            queue,
        }
    }

    #[tactic(auto, unfolding(crate::specs::Queue::record_ok))]
    fn record_ok(self) -> bool
        ensures { result ≡ record_ok self }
    {
        let frame = self.frame;
        self.shared.ok() & ((FRAME_LEAST <= frame) & (frame <= FRAME_MOST))
    }

    // The record, and the lengths of the lent slices.
    #[tactic(auto, unfolding(crate::specs::Queue::lent_ok))]
    pub(crate) fn lent_ok(
        self,
        ring_length: usize,
        tokens_length: usize,
        counts_length: usize,
    ) -> bool
        ensures { result ≡ lent_ok self ring_length tokens_length counts_length }
    {
        let size = self.shared.size;
        self.record_ok()
            && (ring_length == 2 * size) & ((tokens_length == size) & (counts_length == size))
    }

    // The tail value, or 1 where the record breaks a line.
    // Kept: receive has its twin of this and of the register; what they share is in ring, a function for each, and a trait would have both again.
    pub fn tail_value(self) -> Result<usize, Refusal>
        ensures { result ≡ tail_value_of self }
    {
        self.shared.tail_value(self.record_ok())
    }

    // Refused with 1, if the record breaks a line.
    pub fn tail_register(self) -> Result<usize, Refusal>
        ensures { result ≡ tail_register_of self }
    {
        self.shared.tail_register(self.record_ok(), TAIL_REGISTER)
    }
}
