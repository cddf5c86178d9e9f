// The part of the queue record that the receive and the transmit queue have in common.
#![tactic(auto)]

ghost use Rattle.std.specs.Prelude.{◌≡◌};
ghost use Rattle.ring.specs.Sizes.{counts_ok};
ghost use Rattle.ring.specs.Queue.{Shared, ever_posted, ever_returned, shared_ok, slot_of, tail_of, register_at, no_room, empty_queue, advanced, grown, asked_of};
ghost use Rattle.ring.specs.Steps.{Advance, Grow, Judged};
ghost use Rattle.slots.specs.Steps.{SlotIs};

use rules::Refusal;
use slots::slot;

const QUEUE_MOST: usize = 3;

const SIZE_LEAST: usize = 32;

const SIZE_MOST: usize = 4096;

const SIZE_STEP: usize = 32;

// The counts are 64-bit numbers.
const COUNT_MOST: u64 = u64::MAX;

// A queue's tail register stands so many bytes after the one before.
const REGISTER_STEP: usize = 4;

// The part of a queue record that both queues have. The two counts are of slots since the queue was fresh.
#[derive(Clone, Copy, Debug, PartialEq, Eq)]
pub struct Queue {
    pub queue: usize,
    pub size: usize,
    pub head: usize,
    pub posted: usize,
    pub ever_posted: u64,
    pub ever_returned: u64,
}

impl Queue {
    pub fn empty(queue: usize, size: usize) -> Queue
        ensures { result ≡ empty_queue queue size }
    {
        Queue {
            queue,
            size,
            head: 0,
            posted: 0,
            ever_posted: 0,
            ever_returned: 0,
        }
    }

    // Posted and ever returned come to ever posted. A sum that wraps is below ever returned, so where the first test holds it is not ever posted.
    fn counts_ok(self) -> bool
        ensures { result ≡ counts_ok self.posted (ever_posted self) (ever_returned self) }
    {
        (self.ever_returned <= self.ever_posted)
            & ((self.posted as u64).wrapping_add(self.ever_returned) == self.ever_posted)
    }

    // Head, posted and the counts, queue number and size keep their lines. Those that a call moves are tested first, and by a branch: docs/BENCH.md has why.
    pub fn ok(self) -> bool
        ensures { result ≡ shared_ok self }
    {
        if ((self.head < self.size) & (self.posted < self.size)) & self.counts_ok() {
            (self.queue <= QUEUE_MOST)
                & (((SIZE_LEAST <= self.size) & (self.size <= SIZE_MOST))
                    & (self.size % SIZE_STEP == 0))
        } else {
            false
        }
    }

    pub fn tail(self) -> usize
        requires { Shared self }
        ensures { SlotIs self.head self.size self.posted result }
    {
        slot(self.head, self.size, self.posted)
    }

    // Head moves on by n slots, and posted falls by them: they are handed back.
    pub fn advanced(self, n: usize) -> Queue
        requires { Advance self n }
        ensures { result ≡ advanced self n }
    {
        self.moved_to(slot(self.head, self.size, n), n)
    }

    // The same, where the slot at distance n is known.
    pub fn moved_to(self, head: usize, n: usize) -> Queue
        requires advance { Advance self n }
        requires head_value { head ≡ slot_of self n }
        ensures { result ≡ advanced self n }
    {
        Queue {
            queue: self.queue,
            size: self.size,
            head,
            posted: self.posted - n,
            ever_posted: self.ever_posted,
            ever_returned: self.ever_returned + n as u64,
        }
    }

    // Posted grows by n slots.
    pub fn grown(self, n: usize) -> Queue
        requires { Grow self n }
        ensures { result ≡ grown self n }
    {
        Queue {
            queue: self.queue,
            size: self.size,
            head: self.head,
            posted: self.posted + n,
            ever_posted: self.ever_posted + n as u64,
            ever_returned: self.ever_returned,
        }
    }

    // So many slots more are too many, for the ring or for the count.
    pub fn no_room(self, n: usize) -> bool
        requires { Shared self }
        ensures { result ≡ no_room self n }
    {
        (self.size - 1 - self.posted < n) | (COUNT_MOST - self.ever_posted < n as u64)
    }

    // The tail of a record that has been judged.
    // Kept: ok is a bool, and the test stands here and in the register: only where it holds does `Judged` give what the value needs.
    pub fn tail_value(self, ok: bool) -> Result<usize, Refusal>
        requires { Judged self ok }
        ensures { result ≡ asked_of ok (tail_of self) }
    {
        if ok {
            Ok(self.tail())
        } else {
            Err(Refusal::WrongRecord)
        }
    }

    // Its tail register, where that of queue 0 stands at `first`.
    pub fn tail_register(self, ok: bool, first: u16) -> Result<usize, Refusal>
        requires { Judged self ok }
        ensures { result ≡ asked_of ok (register_at first self.queue) }
    {
        if ok {
            Ok(first as usize + REGISTER_STEP * self.queue)
        } else {
            Err(Refusal::WrongRecord)
        }
    }
}
