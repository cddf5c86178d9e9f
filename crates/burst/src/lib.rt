// Many packets in one poll: the posted slots are walked packet by packet, on the record carried on. No packet is built and no word 0 is read: three
// numbers tell a packet.
#![tactic(auto)]

ghost use Rattle.std.specs.Prelude.{◌≡◌, [], ◌∷◌, ◌+◌, ◌*◌, ◌≤◌, length};
ghost use Rattle.std.proofs.lemmas.List.Edits.{sets};
ghost use Rattle.ring.specs.Steps.{Reads};
ghost use Rattle.scan.specs.Scan.{Look};
ghost use Rattle.burst.specs.Out.{packet_numbers};
ghost use Rattle.burst.specs.Polls.{found_by};
ghost use Rattle.burst.specs.Steps.{Polls, FoundAs, PolledAs};

use ring::Queue;
use rules::{Answer, Refusal};

// What tells a packet: its first slot, its slot count, its total length.
pub const PACKET_NUMBERS: usize = 3;

// What a walk finds: the answer, the record's shared part after it, of a packet the slot count and the total length, and the slots examined.
// Kept: zeros and the slots examined beside a refusal, since the contracts of packet and packets say both (`found_by`).
#[derive(Clone, Copy, Debug, PartialEq, Eq)]
pub struct Found {
    pub answer: Answer,
    pub queue: Queue,
    pub count: usize,
    pub total: usize,
    pub examined: usize,
}

// What a burst gives: the answer that stopped it, the record's shared part after it, the packets told and the slots examined.
// Kept: receive's Burst is alike but for the record, which is whole there, and has its name from docs/MANUAL.md.
#[derive(Clone, Copy, Debug, PartialEq, Eq)]
pub struct Polled {
    pub answer: Answer,
    pub queue: Queue,
    pub packets: usize,
    pub examined: usize,
}

// A refusal: the record as it came, and no packet.
fn refused(queue: Queue, refusal: Refusal, examined: usize) -> Found
    ensures { result ≡ found_by (Look.refuse refusal) queue examined }
{
    Found {
        answer: Err(refusal),
        queue,
        count: 0,
        total: 0,
        examined,
    }
}

// Answers 4 or 5 at the first slot that asks for it, or the packet's two numbers: a take's scan, without what it builds. It goes from slot to slot,
// and the slot that it comes to is the next head.
// Kept: queue and buffer one by one, here and in packets: RxQueue, which has both, stands above this crate.
fn packet(queue: Queue, buffer: usize, ring: &[u64]) -> Found
    requires { Reads queue (length ring.now) }
    ensures { FoundAs queue buffer ring.now result }
{
    let mut at = queue.head;
    let mut total: usize = 0;
    for k in 0..queue.posted {
        let word1 = ring[2 * at + 1];
        if !places::dd(word1) {
            return refused(queue, Refusal::NotYet, k + 1);
        }
        if scan::slot_ok(buffer, k, word1) {
            at = slots::next(at, queue.size);
            total += places::length(word1);
            if places::eop(word1) {
                return Found {
                    answer: Ok(()),
                    queue: queue.moved_to(at, k + 1),
                    count: k + 1,
                    total,
                    examined: k + 1,
                };
            }
        } else {
            return refused(queue, Refusal::Contradiction, k + 1);
        }
    }
    refused(queue, Refusal::NotYet, queue.posted)
}

// The three numbers of packet i.
// Kept: the three numbers one by one, as the contract has them: Found has two of them, and its queue stands past the first slot.
fn tell(out: &mut [u64], i: usize, first: usize, count: usize, total: usize)
    requires { packet_numbers * i + packet_numbers ≤ length out.old }
    ensures { out.new ≡ sets out.old (packet_numbers * i) (first ∷ count ∷ total ∷ []) }
{
    let place = PACKET_NUMBERS * i;
    out[place] = first as u64;
    out[place + 1] = count as u64;
    out[place + 2] = total as u64;
}

// Packets are found and told until the limit is reached, or one is not there.
pub fn packets(start: Queue, buffer: usize, ring: &[u64], out: &mut [u64], limit: usize) -> Polled
    requires { Polls start (length ring.now) (length out.old) limit }
    ensures { PolledAs start buffer ring.now out.old limit result out.new }
{
    let mut queue = start;
    let mut examined: usize = 0;
    for packets in 0..limit {
        let first = queue.head;
        let found = packet(queue, buffer, ring);
        queue = found.queue;
        examined += found.examined;
        if found.answer.is_err() {
            return Polled {
                answer: found.answer,
                queue,
                packets,
                examined,
            };
        }
        tell(out, packets, first, found.count, found.total);
    }
    Polled {
        answer: Ok(()),
        queue,
        packets: limit,
        examined,
    }
}
