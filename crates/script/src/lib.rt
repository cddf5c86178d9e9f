// What the lines of a script share: how much memory a queue has, a line's numbers, the part of the record that both queues have, as it is
// handed in and printed, and the numbers of an answer. A part of the program `probe`: what it prints is compared.
#![tactic(auto)]

ghost use Rattle.std.specs.Prelude.{◌≡◌, take};

use parts::{first, first_mut, store};
use ring::Queue;
use rules::{Answer, Refusal, number_of};
use sum::{Summand, sum_of};

// Each queue's memory, in slots, and in numbers of its ring.
pub const SLOTS: usize = 8192;

pub const RING: usize = 2 * SLOTS;

// The burst's list, in numbers: more than a burst wants, so that a wrong length can be lent.
pub const OUT: usize = 128;

// Each ring of the mailbox, in elements, and in its bytes; and the buffer, in bytes.
pub const ELEMENTS: usize = 1024;

pub const MAIL_RING: usize = 32 * ELEMENTS;

pub const MAIL_BUFFER: usize = 8192;

// How many numbers of a send stand before its addresses.
pub const GIVEN: usize = 13;

// The most numbers that a line can have: a send with an address and a length for each slot.
pub const NUMBERS: usize = GIVEN + RING;

// The numbers of the longest answer: a take.
pub const LONGEST: usize = 36;

// A line's numbers, by their place; behind them stand those of earlier lines.
// Kept: a send has up to 16,397 numbers and there is no heap, so one array serves all lines, and a command takes its own by place.
pub type Numbers = [u64; NUMBERS];

// An answer's numbers, so many of the values.
// Kept: an array and a count, since a row is Copy, which no ArrayVec is.
#[derive(Clone, Copy)]
pub struct Row {
    pub values: [u64; LONGEST],
    pub count: usize,
}

impl Row {
    // With more numbers behind, as far as there is room.
    pub fn and(mut self, more: &[u64]) -> Row {
        for number in more {
            if self.count < LONGEST {
                self.values[self.count] = *number;
                self.count += 1;
            }
        }
        self
    }

    pub fn numbers(&self) -> &[u64] {
        first(&self.values, self.count)
    }
}

pub fn row_of(numbers: &[u64]) -> Row {
    let row = Row {
        values: [0; LONGEST],
        count: 0,
    };
    row.and(numbers)
}

// A queue's ring and its list, and how much of each is lent.
// Kept: a line says how much is lent apart from what the memory holds, and what stands behind stays: no vector's length. So Tx, which has a third.
#[derive(Clone, Copy)]
pub struct Memory<R, L, const N: usize, const M: usize> {
    pub ring: [R; N],
    pub list: [L; M],
    pub ring_lent: usize,
    pub list_lent: usize,
}

impl<R: Summand, L: Summand, const N: usize, const M: usize> Memory<R, L, N, M> {
    // Nothing is lent yet.
    pub fn of(ring: [R; N], list: [L; M]) -> Memory<R, L, N, M> {
        Memory {
            ring,
            list,
            ring_lent: 0,
            list_lent: 0,
        }
    }

    // So many numbers of the ring and so many of the list are lent.
    pub fn lend(&mut self, ring: usize, list: usize) {
        self.ring_lent = ring;
        self.list_lent = list;
    }

    // The memory that is lent: the ring and the list.
    pub fn lent(&self) -> (&[R], &[L])
        ensures of_ring { result.0.now ≡ take self.now.ring_lent self.now.ring }
        ensures of_list { result.1.now ≡ take self.now.list_lent self.now.list }
    {
        (
            first(&self.ring, self.ring_lent),
            first(&self.list, self.list_lent),
        )
    }

    // The same to be written.
    pub fn lent_mut(&mut self) -> (&mut [R], &mut [L])
        ensures of_ring { result.0.now ≡ take self.old.ring_lent self.old.ring }
        ensures of_list { result.1.now ≡ take self.old.list_lent self.old.list }
    {
        let Memory {
            ring,
            list,
            ring_lent,
            list_lent,
        } = self;
        (first_mut(ring, *ring_lent), first_mut(list, *list_lent))
    }

    pub fn sums(&self) -> Row {
        row_of(&[
            sum_of(&self.ring, self.ring_lent),
            sum_of(&self.list, self.list_lent),
        ])
    }
}

// What a line hands in of the record: its first six numbers.
pub fn queue_of(numbers: &Numbers) -> Queue {
    Queue {
        queue: numbers[0] as usize,
        size: numbers[1] as usize,
        head: numbers[2] as usize,
        posted: numbers[3] as usize,
        ever_posted: numbers[4],
        ever_returned: numbers[5],
    }
}

// Where a queue stands, behind the numbers of a row.
fn standing(row: Row, queue: Queue) -> Row {
    row.and(&[
        queue.head as u64,
        queue.posted as u64,
        queue.ever_posted,
        queue.ever_returned,
    ])
}

// How the row of a call begins that hands its queue on.
pub fn queue_row(answer: Answer, queue: Queue) -> Row {
    standing(row_of(&[u64::from(number_of(answer))]), queue)
}

// The row of a fresh queue; the bytes are its buffer's, or its longest frame's.
pub fn fresh_row(answer: Answer, queue: Queue, bytes: usize) -> Row {
    let answer = u64::from(number_of(answer));
    let first = row_of(&[answer, queue.queue as u64, queue.size as u64]);
    standing(first, queue).and(&[bytes as u64])
}

// The row of what was asked of a record, with 0 behind a refusal.
pub fn asked_row(asked: Result<usize, Refusal>) -> Row {
    match asked {
        Ok(value) => row_of(&[0, value as u64]),
        Err(refusal) => row_of(&[u64::from(number_of(Err(refusal))), 0]),
    }
}

// Writes a narrower memory; a line with a greater number is a bad one.
pub fn poke_from<T: TryFrom<u64> + Copy>(memory: &mut [T], i: usize, value: u64)
where
    <T as TryFrom<u64>>::Error: Drop,
{
    if let Ok(narrow) = T::try_from(value) {
        store(memory, i, narrow);
    }
}
