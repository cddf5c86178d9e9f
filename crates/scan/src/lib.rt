// What a take sees of the posted slots: what the device's rules allow in each, and what is handed up of a packet.
#![tactic(auto)]

ghost use Rattle.std.specs.Prelude.{◌≡◌, []};
ghost use Rattle.scan.specs.Scan.{allowed};
ghost use Rattle.scan.specs.Told.{seen_of};

use ring::Queue;
use rules::Refusal;

// A packet is 1 to 5 slots with data, then at most one of length 0, which is its last.
const DATA_SLOTS: usize = 5;

pub const PACKET_SLOTS: usize = DATA_SLOTS + 1;

// What a scan gives: the answer, the record's shared part after it, and of a packet the slot count, the total length, each slot's address and length
// (places past the slots are 0) and the last slot's words.
// Kept: zeros beside a refusal (`seen_by`; edits refused_of_one, refused_addresses); and two arrays, as in receive's Packet.
#[derive(Clone, Copy, Debug, PartialEq, Eq)]
pub struct Seen<R = Refusal> {
    pub answer: Result<(), R>,
    pub queue: Queue,
    pub count: usize,
    pub total: usize,
    pub addresses: [u64; PACKET_SLOTS],
    pub lengths: [usize; PACKET_SLOTS],
    pub word0: u64,
    pub word1: u64,
}

// What the device's rules allow in a slot with k slots of its packet before it: below the sixth at most the buffer size, and 0 only in a last slot that
// is not the first; in the sixth 0, and it is the last.
pub fn slot_ok(buffer: usize, k: usize, word1: u64) -> bool
    ensures { result ≡ allowed buffer k (record { word0 = 0; word1 = word1 }) }
{
    let length = places::length(word1);
    let last = places::eop(word1);
    if k < DATA_SLOTS {
        (length <= buffer) & ((1 <= length) | (last & (1 <= k)))
    } else {
        (length == 0) & last
    }
}

// An answer with no packet: the record as it came, and zeros. A refusal is of any type, so that a number can be one.
#[tactic(auto, unfolding(crate::specs::Told::seen_of, crate::specs::Told::padded, crate::specs::Told::sum, crate::specs::Told::last_words))]
pub fn refused<R>(queue: Queue, answer: Result<(), R>) -> Seen<R>
    ensures { result ≡ seen_of answer queue [] }
{
    Seen {
        answer,
        queue,
        count: 0,
        total: 0,
        addresses: [0; PACKET_SLOTS],
        lengths: [0; PACKET_SLOTS],
        word0: 0,
        word1: 0,
    }
}
