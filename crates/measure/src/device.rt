// The device's side of the rings: where it stands, and what it writes.
use crate::MOST_SLOTS;
use parts::store;

// Bits 3:0 of word 1 in the last slot of a packet that is sent.
const DONE: u64 = 15;

// Word 1 of a write-back without its length: DD; in a last slot also EOP, L3L4P, FLTSTAT 3 and type 26.
const MIDDLE: u64 = 0x1;

const LAST: u64 = 0x68000300B;

const LENGTH: u64 = 38;

// The slot so many further round the ring; 0 where the slot is none, or that is more than once round.
pub fn further(at: usize, by: usize, size: usize) -> usize {
    if at < size {
        let room = size - at;
        if by < room {
            return at + by;
        }
        if by - room < size {
            return by - room;
        }
    }
    0
}

pub fn middle_word() -> u64 {
    MIDDLE | 2048 << LENGTH
}

// A length from 64 to 1,087.
pub fn last_word(i: u64) -> u64 {
    LAST | (64 + i % 1024) << LENGTH
}

// An empty last slot.
pub fn empty_word() -> u64 {
    LAST
}

// The write-back of a received slot, with a number of the packet's in word 0.
pub fn write_back(ring: &mut [u64], at: usize, i: u64, word1: u64) {
    if at < MOST_SLOTS {
        store(ring, 2 * at, i << 32 | 0x123);
        store(ring, 2 * at + 1, word1);
    }
}

// The mark in the last slot of a packet that is sent.
pub fn mark(ring: &mut [u64], last: usize) {
    if last < MOST_SLOTS {
        store(ring, 2 * last + 1, DONE);
    }
}
